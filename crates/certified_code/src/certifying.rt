//! The last step from pieces to a module: it is read again, and verified.

ghost use Rattle.std.specs.Prelude.{◌≡◌, ◌≢◌, IfOk, IfErr, OnOk, Err};
ghost use Rattle.code_pieces.specs.PieceViews.{pieces_of};
ghost use Rattle.code_pieces.specs.Laying.{apart};
ghost use Rattle.code_pieces.specs.Laid.{AreTooLarge};
ghost use Rattle.module_format.specs.Contents.{Contents};
ghost use Rattle.module_format.specs.Keeping.{Format};
ghost use Rattle.certified_code.specs.CertifiedModules.{Certifies, BreaksARule, AreCertified, AreRefused};
ghost use Rattle.certified_code.specs.CertifiedModules.{IsCertifiedModule, IsUncertified};

use certificate::Module;
use code_pieces::{Piece, module_of};
use module_builder::GenFault;
use std::alloc::Global;
use verifier::verify;

/// What a file says.
fn read_again<'a>(alloc: Global, bytes: &'a [u8]) -> Result<Module<'a>, GenFault>
    ensures ok { IfOk result (λ m. (c : Contents) → Format bytes.now c → m ≡ c) }
    ensures invalid { IfErr result (λ fault. fault ≡ GenFault.Invalid → (c : Contents) → Format bytes.now c → ⊥) }
    ensures limit { result ≢ Err GenFault.Limit }
{
    let fault = match Module::read(alloc, bytes) {
        Ok(module) => return Ok(module),
        Err(fault) => fault,
    };
    if fault.number == module_format::MEMORY {
        return Err(GenFault::Memory);
    }
    Err(GenFault::Invalid)
}

/// Verifies a module.
#[tactic(auto, using(crate::proofs::Refusals::breaks_a_rule))]
fn judge(alloc: Global, module: &Module) -> Result<(), GenFault>
    ensures ok { OnOk result (Certifies «module».now) }
    ensures invalid { IfErr result (λ fault. fault ≡ GenFault.Invalid → BreaksARule «module».now) }
    ensures limit { result ≢ Err GenFault.Limit }
{
    let refusal = match verify(alloc, module) {
        Ok(_) => return Ok(()),
        Err(refusal) => refusal,
    };
    if refusal.number == states::MEMORY {
        return Err(GenFault::Memory);
    }
    Err(GenFault::Invalid)
}

/// Reads a file and verifies it.
fn certify(alloc: Global, bytes: &[u8]) -> Result<(), GenFault>
    ensures ok { OnOk result (AreCertified bytes.now) }
    ensures invalid { IfErr result (λ fault. fault ≡ GenFault.Invalid → AreRefused bytes.now) }
    ensures limit { result ≢ Err GenFault.Limit }
{
    match read_again(alloc, bytes) {
        Ok(module) => judge(alloc, &module),
        Err(fault) => Err(fault),
    }
}

/// The module of pieces with `labels` labels, for links that take messages of these lengths: output links 0 to 3
/// and input links 0 to 3. It is certified, so no run of it has a fault.
///
/// # Errors
///
/// `Limit` if no layout fits or a number is above a limit of the format; `Invalid` if the module is not valid, or not
/// certified; `Memory` if memory runs out.
pub fn certified_module_of(
    alloc: Global,
    pieces: Vec<Piece>,
    labels: usize,
    links: [u32; 8],
) -> Result<Vec<u8>, GenFault>
    ensures ok { IfOk result (λ v. IsCertifiedModule (pieces_of pieces.items) labels links v.items) }
    ensures limit { result ≡ Err GenFault.Limit → AreTooLarge (apart (pieces_of pieces.items)) labels links }
    ensures invalid { result ≡ Err GenFault.Invalid → IsUncertified (pieces_of pieces.items) labels links }
{
    let bytes = module_of(alloc, pieces, labels, links)?;
    certify(alloc, &bytes)?;
    Ok(bytes)
}
