//! The one pass over the code.

ghost use Rattle.std.specs.Prelude.{◌≡◌, OnOk, IfErr, Ok};
ghost use Rattle.module_format.specs.Keeping.{Keeps};
ghost use Rattle.verifier.specs.Judge.{verdict};
ghost use Rattle.verifier.specs.Judging.{StopsBy};

use crate::stop::{Stop, broken};
use crate::walk::{Place, Walk};
use certificate::Module;
use states::Rule;
use std::alloc::Global;

/// Goes over the code once, with one state. The rule that is broken is the first one.
pub fn judge_code<'a>(alloc: Global, module: &'a Module<'a>) -> Result<(), Stop>
    ensures accepts { OnOk result (verdict «module».now ≡ Ok tt) }
    ensures kept { Keeps «module».now }
    ensures refuses { IfErr result (StopsBy «module».now) }
{
    let Ok(mut walk) = Walk::begin(alloc, module) else {
        return Err(Stop::Memory);
    };
    'code: loop {
        let arrival = match walk.arrive() {
            Place::Instruction(arrival) => arrival,
            Place::Unspelled => return Err(Stop::Broken(broken(Rule::Spelling, walk.offset()))),
            Place::End => break 'code,
        };
        walk.enter(&arrival);
        match walk.go_on(&arrival) {
            Ok(Ok(())) => {}
            Ok(Err(breach)) => return Err(Stop::Broken(breach)),
            Err(_) => return Err(Stop::Memory),
        }
    }
    match walk.ended() {
        Ok(()) => Ok(()),
        Err(breach) => Err(Stop::Broken(breach)),
    }
}
