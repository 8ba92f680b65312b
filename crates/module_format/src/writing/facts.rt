//! Facts.
#![tactic(auto, using(crate::proofs::RegionLaws::wrapped_number), unfolding(crate::specs::Spelling::fact_bytes))]

ghost use Rattle.std.specs.Prelude.{◌≡◌};
ghost use Rattle.module_format.specs.declared.fact.Fact.TheVariants.{Pointer};
ghost use Rattle.module_format.specs.Regions.{region_number};
ghost use Rattle.module_format.specs.Spelling.{step_size, fact_bytes, u16_bytes};
ghost use Rattle.module_format.specs.Writable.{Writes};

use crate::fact::{Fact, Region, Step};
use crate::tags::{
    TAG_CODE_ADDRESS, TAG_LOOP, TAG_NUMBER, TAG_POINTER, TAG_RETURN_ADDRESS, TAG_UNKNOWN,
};
use crate::writing::writer::Writer;

/// A pointer's step, in bytes.
fn step_size(step: Step) -> u8
    ensures { result ≡ step_size step }
{
    match step {
        Step::Byte => 1,
        Step::Word => 4,
    }
}

/// The number of a region, of which a valid fact has one that is a u16.
fn put_region(out: &mut Writer, region: Region)
    ensures { Writes out.old (u16_bytes (region_number region)) out.new }
{
    out.u16(match region {
        Region::Frame => 0,
        Region::Constants => 1,
        Region::Parameter(number) => number.wrapping_add(2),
    });
}

/// A pointer: its region, bounds and step, after the tag.
#[inline(always)]
fn put_pointer(out: &mut Writer, region: Region, lo: i32, hi: i32, step: Step)
    ensures { Writes out.old (fact_bytes (Pointer region lo hi step)) out.new }
{
    out.u8(TAG_POINTER);
    put_region(out, region);
    out.i32(lo);
    out.i32(hi);
    out.u8(step_size(step));
}

/// A tag, and what belongs to it.
#[inline(always)]
pub(crate) fn put_fact(out: &mut Writer, fact: &Fact)
    ensures { Writes out.old (fact_bytes fact.now) out.new }
{
    match *fact {
        Fact::Unknown => out.u8(TAG_UNKNOWN),
        Fact::Number { lo, hi } => {
            out.u8(TAG_NUMBER);
            out.i32(lo);
            out.i32(hi);
        }
        Fact::Pointer {
            region,
            lo,
            hi,
            step,
        } => put_pointer(out, region, lo, hi, step),
        Fact::CodeAddress { offset } => {
            out.u8(TAG_CODE_ADDRESS);
            out.u32(offset);
        }
        Fact::Loop {
            base,
            count,
            weight,
        } => {
            out.u8(TAG_LOOP);
            out.i32(base);
            out.u32(count);
            out.u64(weight);
        }
        Fact::ReturnAddress => out.u8(TAG_RETURN_ADDRESS),
    }
}
