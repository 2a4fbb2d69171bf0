//! Reading of specifications.
ghost use Rattle.std.specs.Prelude.{◌≡◌, ◌≤◌, length, IfOk, IfErr, MatchResult};
ghost use Rattle.rules.specs.Specification.{IsSpec};
ghost use Rattle.rules.specs.Admissible.{Takes, most_slots};
ghost use Rattle.pagespec.specs.Reading.{spec_at, past_modulo};
ghost use Rattle.pagespec.specs.Groups.{IsStop};
ghost use Rattle.pagespec.specs.Written.{WrittenRead, ModuloRead};
ghost use Rattle.pagespec.specs.Refusals.{IsRefusal, IsSyntaxPlace};

use crate::check::first_fault;
use crate::error::SpecError;
use crate::groups::{ParsedGroups, Stop, read_all_groups};
use crate::scan::read_byte;
use crate::settle::settled_groups;
use crate::spec::Spec;
use lengths::read_digits;
use std::alloc::Global;

/// The most bytes that a text may have.
const MOST_BYTES: usize = 65_536;

/// The specification that a text means (pstops manual, page specifications). A modulo that isn't written is 1. If there is only one item, its page
/// number may be left out and is then 0. Leading zeros of a number have no effect.
///
/// Each check covers the whole text. The first check that fails, in the order of `SpecError`, is reported, with the first item or group at fault. The
/// checks don't read the text again. Without enough memory the error is `NoMemory`.
pub fn read_spec(alloc: Global, text: &str) -> Result<Spec, SpecError>
    ensures taken { IfOk result (λ spec. Takes most_slots text.now spec) }
    ensures refused { IfErr result (IsRefusal text.now) }
    ensures placed { IfErr result (IsSyntaxPlace text.now) }
{
    if MOST_BYTES < text.len() {
        return Err(SpecError::TooLong);
    }
    let bytes = text.as_bytes();
    let (modulo, parsed) = match read_written(alloc, bytes) {
        Ok(found) => found,
        Err(Stop::Stuck(stuck)) => {
            return Err(SpecError::Syntax(bytes.len().saturating_sub(stuck.left)));
        }
        Err(Stop::NoMemory) => return Err(SpecError::NoMemory),
    };
    if let Some(fault) = first_fault(modulo, &parsed.items, &parsed.lengths) {
        return Err(fault);
    }
    match settled_groups(alloc, &parsed.items, &parsed.lengths) {
        Ok(groups) => Ok(Spec::new(modulo, groups)),
        Err(_) => Err(SpecError::NoMemory),
    }
}

/// The modulo and the groups of a text. A modulo above 100,000 counts as 100,000. If no modulo is written, it is 1. Fails as `read_all_groups` does.
fn read_written(alloc: Global, bytes: &[u8]) -> Result<(u32, ParsedGroups), Stop>
    ensures { MatchResult result (λ x. WrittenRead bytes.now x.0 x.1) (IsStop IsSpec spec_at bytes.now) }
{
    let (modulo, rest) = split_modulo(bytes);
    let parsed = read_all_groups(alloc, rest)?;
    Ok((modulo, parsed))
}

/// The modulo, which comes before a colon, and the text after the colon. A modulo above 100,000 counts as 100,000. If no modulo is written, it is 1,
/// and the text is returned whole.
fn split_modulo(bytes: &[u8]) -> (u32, &[u8])
    ensures { ModuloRead bytes.now (past_modulo bytes.now) result.0 result.1.now }
{
    let Some((modulo, after)) = read_digits(bytes) else {
        return (1, bytes);
    };
    match read_byte(b':', after) {
        Some(rest) => (modulo, rest),
        None => (1, bytes),
    }
}
