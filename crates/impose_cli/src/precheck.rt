//! The checks of a request that don't need its document.
ghost use Rattle.std.specs.Prelude.{◌≡◌, option_map, IfErr, OnOk};
ghost use Rattle.impose_cli.specs.Precheck as meaning;
ghost use Rattle.impose_cli.specs.Precheck.{AreGoodRanges, MayBeRead, RefusesRanges, RefusesRequest};

use crate::laying::check_layout;
use command_words::name_of;
use impose_messages::ImposeFault;
use impose_words::{ImposeRequest, PageChoice, Product};
use rows::{RowError, read_row};
use std::alloc::Global;

/// Makes the checks that don't need the document, so that a mistake is found before a byte is read. Refuses, in this order, a drawing with the name
/// of the input, an option without effect, a layout that isn't possible, and page ranges that don't follow the grammar.
pub fn check_request(alloc: Global, request: &ImposeRequest) -> Result<(), ImposeFault>
    ensures possible { OnOk result (MayBeRead request.now) }
    ensures refused { IfErr result (RefusesRequest request.now) }
{
    if let Some(fault) = option_fault(request) {
        return Err(fault);
    }
    check_layout(alloc, request)?;
    check_ranges(alloc, &request.choice)
}

/// The fault of a drawing whose name is that of the input, or else of an option without effect. `None` if there is neither.
fn option_fault(request: &ImposeRequest) -> Option<ImposeFault>
    ensures { result ≡ meaning.option_fault request.now }
{
    if let Product::Picture(file) = &request.product
        && is_one_file(name_of(file), name_of(&request.infile))
    {
        return Some(ImposeFault::OverInput);
    }
    request.idle_option().map(ImposeFault::Idle)
}

/// Whether two files have the same name. False if one of them has no name.
fn is_one_file(one: Option<&str>, other: Option<&str>) -> bool
    ensures { result ≡ meaning.is_one_file (option_map (λ n. n.now) one.entry) (option_map (λ n. n.now) other.entry) }
{
    match (one, other) {
        (Some(one), Some(other)) => one == other,
        _ => false,
    }
}

/// Checks the form of the page ranges. They are read as if the document had no pages, because a wrong form is refused for every document alike.
fn check_ranges(alloc: Global, choice: &PageChoice) -> Result<(), ImposeFault>
    ensures ranges { OnOk result (AreGoodRanges choice.now) }
    ensures refused { IfErr result (RefusesRanges choice.now) }
{
    match &choice.ranges {
        None => Ok(()),
        Some(ranges) => match read_row(alloc, 0, ranges.as_str().as_bytes()) {
            Err(RowError::NotARange(at)) => Err(ImposeFault::Row(RowError::NotARange(at))),
            _ => Ok(()),
        },
    }
}
