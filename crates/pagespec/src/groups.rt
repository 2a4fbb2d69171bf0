//! Reading of the items and groups of a text.
ghost use Rattle.std.specs.Prelude.{◌≡◌, ◌∷◌, [], min, IfOk, IfErr, MatchResult};
ghost use Rattle.rules.specs.Specification.{IsItem, IsBareItem, AreGroups};
ghost use Rattle.pagespec.specs.Places.{StuckIn, StuckAfter};
ghost use Rattle.pagespec.specs.Reading.{item_at, group_at, groups_at, bare_at, all_groups_at, whole_groups_at};
ghost use Rattle.pagespec.specs.Groups.{IsStop, IsGroup, AreWholeGroups, ItemAppended, GroupRead, GroupsRead, BareRead, ParsesTo};

use crate::parsed::{ParsedItem, read_item, read_modifiers, split_minus};
use crate::scan::{ParseStop, Rest, read_byte};
use std::alloc::Global;

/// The items of all groups in one list, in the order of the text, and the number of items in each group.
#[derive(Drop)]
pub(crate) struct ParsedGroups {
    pub items: Vec<ParsedItem>,
    pub lengths: Vec<usize>,
}

/// Why the groups of a text couldn't be read.
#[derive(Clone, Copy)]
pub(crate) enum Stop {
    Stuck(ParseStop),
    NoMemory,
}

/// Reads all groups of a specification from the text after its modulo. If there is only one item, its page number may be left out. If the text
/// doesn't follow the grammar, the error has the place where reading stops. Without enough memory the error is `NoMemory`.
pub(crate) fn read_all_groups(alloc: Global, bytes: &[u8]) -> Result<ParsedGroups, Stop>
    ensures { MatchResult result (ParsesTo (all_groups_at bytes.now)) (IsStop AreGroups all_groups_at bytes.now) }
{
    let bare = match read_bare_item(bytes) {
        Ok(item) => return one_item(alloc, item),
        Err(stuck) => stuck,
    };
    match read_groups_to_end(alloc, bytes) {
        Ok(parsed) => Ok(parsed),
        Err(Stop::Stuck(stuck)) => Err(Stop::Stuck(later_stop(stuck, bare))),
        Err(Stop::NoMemory) => Err(Stop::NoMemory),
    }
}

/// The later of two stops in one text.
fn later_stop(one: ParseStop, other: ParseStop) -> ParseStop
    ensures { result.left ≡ min one.left other.left }
{
    ParseStop {
        left: one.left.min(other.left),
    }
}

/// Reads the groups of a text. If the text doesn't begin with groups, or goes on after them, the error has the place where reading stops. Without
/// enough memory the error is `NoMemory`.
fn read_groups_to_end(alloc: Global, bytes: &[u8]) -> Result<ParsedGroups, Stop>
    ensures { MatchResult result (ParsesTo (whole_groups_at bytes.now)) (IsStop AreWholeGroups whole_groups_at bytes.now) }
{
    let (parsed, rest) = read_groups(alloc, bytes)?;
    if rest.text.is_empty() {
        Ok(parsed)
    } else {
        Err(Stop::Stuck(rest.stuck))
    }
}

/// One group, which has only this item. Fails only if memory is refused.
fn one_item(alloc: Global, item: ParsedItem) -> Result<ParsedGroups, Stop>
    ensures alone { IfOk result (λ k. (k.items.items ≡ item ∷ []) × (k.lengths.items ≡ 1 ∷ [])) }
    ensures stop { IfErr result (λ e. e ≡ Stop.NoMemory) }
{
    let items = Vec::from_slice(alloc, &[item]).map_err(|_| Stop::NoMemory)?;
    let lengths = Vec::from_slice(alloc, &[1]).map_err(|_| Stop::NoMemory)?;
    Ok(ParsedGroups { items, lengths })
}

/// Reads a text that is a single item without a page number. The page number is then 0. If the text isn't such an item, the error is the place where
/// reading stops. An empty text isn't such an item.
fn read_bare_item(bytes: &[u8]) -> Result<ParsedItem, ParseStop>
    ensures { MatchResult result (BareRead bytes.now) (λ stuck. StuckIn IsBareItem bare_at bytes.now stuck.left) }
{
    if bytes.is_empty() {
        return Err(ParseStop { left: 0 });
    }
    let (from_end, body) = split_minus(bytes);
    let (modifiers, rest) = read_modifiers(body);
    if !rest.text.is_empty() {
        return Err(rest.stuck);
    }
    Ok(ParsedItem {
        from_end,
        page: 0,
        modifiers,
    })
}

/// Reads the groups at the start of a text, and also returns the text after them. If there is no group at the start or after a comma, the error has
/// the place where reading stops. Without enough memory the error is `NoMemory`.
fn read_groups(alloc: Global, bytes: &[u8]) -> Result<(ParsedGroups, Rest<'_>), Stop>
    ensures { MatchResult result (λ x. GroupsRead bytes.now x.0 x.1.text.now
        × StuckAfter AreWholeGroups groups_at bytes.now x.1.text.now x.1.stuck.left)
        (IsStop AreWholeGroups groups_at bytes.now) }
{
    let mut items = Vec::new(alloc);
    let mut lengths = Vec::new(alloc);
    let mut rest = bytes;
    for _ in 0..bytes.len() + 1 {
        let (length, after) = read_group(rest, &mut items)?;
        match lengths.push(length) {
            Ok(_) => (),
            Err(_) => return Err(Stop::NoMemory),
        }
        match read_byte(b',', after.text) {
            Some(next) => rest = next,
            None => return Ok((ParsedGroups { items, lengths }, after)),
        }
    }
    Err(Stop::Stuck(ParseStop { left: 0 }))
}

/// Reads the group at the start of a text and appends its items to `items`. Returns the number of these items, and the text after the group. If there
/// is no item at the start or after a plus sign, the error has the place where reading stops. Without enough memory the error is `NoMemory`.
fn read_group<'t>(bytes: &'t [u8], items: &mut Vec<ParsedItem>) -> Result<(usize, Rest<'t>), Stop>
    ensures { MatchResult result (λ x. GroupRead bytes.now items.old.items items.new.items x.0 x.1.text.now
        × StuckAfter IsGroup group_at bytes.now x.1.text.now x.1.stuck.left)
        (IsStop IsGroup group_at bytes.now) }
{
    let mut rest = bytes;
    for i in 0..bytes.len() + 1 {
        let after = append_item(rest, items)?;
        match read_byte(b'+', after.text) {
            Some(next) => rest = next,
            None => return Ok((i + 1, after)),
        }
    }
    Err(Stop::Stuck(ParseStop { left: 0 }))
}

/// Reads the item at the start of a text and appends it to `items`. Returns the text after the item. If there is no item, the error has the place
/// where reading stops. Without enough memory the error is `NoMemory`.
fn append_item<'t>(bytes: &'t [u8], items: &mut Vec<ParsedItem>) -> Result<Rest<'t>, Stop>
    ensures { MatchResult result (λ x. ItemAppended bytes.now items.old.items items.new.items x.text.now
        × StuckAfter IsItem item_at bytes.now x.text.now x.stuck.left)
        (IsStop IsItem item_at bytes.now) }
{
    match read_item(bytes) {
        Ok((item, rest)) => match items.push(item) {
            Ok(_) => Ok(rest),
            Err(_) => Err(Stop::NoMemory),
        },
        Err(stuck) => Err(Stop::Stuck(stuck)),
    }
}
