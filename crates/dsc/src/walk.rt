//! Walks over the units of a text, for the pass that cuts a document and for the filters.
ghost use Rattle.std.specs.Prelude.{◌≡◌, ◌<◌, length, codes, IfOk, IfErr, true, false, Err};
ghost use Rattle.rules.specs.Parts.{begins_page, begins_trailer};
ghost use Rattle.rules.specs.Units.{first_unit};
ghost use Rattle.dsc.specs.Views.{unit_of, block_fault, at_depth};
ghost use Rattle.dsc.specs.Walks.{walk_start, past_unit, IsPiece, IsPieceOf};

use crate::errors::FaultyBlock;
use crate::keys::{Meaning, meaning_of};
use crate::plain::plain_len;
use crate::units::{LineOrBlock, UnitError, first_unit};
use memchr::memmem::Finder;
use std::marker::Model;

/// A walk over the units of a text. Contracts see its place: the rest of the text, the byte at which the rest begins,
/// and the depth in embedded documents there.
#[derive(Drop)]
pub(crate) struct Walk<'d> {
    percent_signs: Finder<'static>,
    rest: &'d [u8],
    at: usize,
    depth: usize,
}

impl<'d> Model for Walk<'d> {
    ghost use Rattle.std.specs.Prelude.{◌≡◌, codes};
    ghost use Rattle.dsc.specs.Walks.{WalkPlace, IsShallow};

    ghost Value = { WalkPlace };

    ghost view = { λ w. record { rest = w.rest.now; at = w.at; depth = w.depth } };

    ghost invariant = { λ w. (w.percent_signs ≡ codes "%%") × IsShallow w.rest.now w.at w.depth };
}

/// A step of a walk: a unit, the byte at which it begins, the depth before it, and its meaning there. Successive lines
/// that don't begin with two percent signs are passed together, as one unit without content.
#[derive(Clone, Copy)]
pub(crate) struct WalkStep<'d> {
    pub unit: LineOrBlock<'d>,
    pub at: usize,
    pub depth: usize,
    pub meaning: Meaning,
}

impl<'d> Walk<'d> {
    /// A walk from the start of a text.
    pub fn new(text: &'d [u8]) -> Walk<'d>
        ensures { result ≡ walk_start text.now }
    {
        Walk {
            percent_signs: Finder::new(b"%%".as_slice()),
            rest: text,
            at: 0,
            depth: 0,
        }
    }

    /// Whether the walk has passed the whole text.
    pub fn is_done(&self) -> bool
        ensures done { result ≡ true → length self.now.rest ≡ 0 }
        ensures going { result ≡ false → 0 < length self.now.rest }
    {
        self.rest.is_empty()
    }

    /// Passes the next unit and returns it. If the next unit is a faulty data block, the error contains that block.
    pub fn step(&mut self) -> Result<WalkStep<'d>, FaultyBlock>
        requires { 0 < length self.old.rest }
        ensures piece { IfOk result (λ s. IsPieceOf (unit_of s.unit) self.old.rest) }
        ensures place { IfOk result (λ s. self.new ≡ past_unit (unit_of s.unit) self.old) }
        ensures at { IfOk result (λ s. s.at ≡ self.old.at) }
        ensures depth { IfOk result (λ s. s.depth ≡ self.old.depth) }
        ensures page { IfOk result (λ s. s.meaning.is_page ≡ begins_page (at_depth self.old.depth (unit_of s.unit))) }
        ensures trailer { IfOk result (λ s.
            s.meaning.is_trailer ≡ begins_trailer (at_depth self.old.depth (unit_of s.unit))) }
        ensures fault { IfErr result (λ b. first_unit self.old.rest ≡ Err (block_fault b.fault)) }
        ensures fault_at { IfErr result (λ b. b.at ≡ self.old.at) }
    {
        let at = self.at;
        let depth = self.depth;
        let unit = match first_piece(&self.percent_signs, self.rest) {
            Ok(unit) => unit,
            Err(fault) => return Err(FaultyBlock { at, fault }),
        };
        let meaning = meaning_of(&unit, depth);
        let (_, others) = self.rest.split_at(unit.bytes.len());
        self.rest = others;
        self.at = at + unit.bytes.len();
        self.depth = meaning.depth;
        Ok(WalkStep {
            unit,
            at,
            depth,
            meaning,
        })
    }
}

/// The first unit of a non-empty text. Successive lines that don't begin with two percent signs count as one unit. If
/// the unit is a faulty data block, it is refused.
fn first_piece<'d>(percent_signs: &Finder<'_>, text: &'d [u8]) -> Result<LineOrBlock<'d>, UnitError>
    requires needle { percent_signs.now ≡ codes "%%" }
    requires some { 0 < length text.now }
    ensures piece { IfOk result (λ u. IsPieceOf (unit_of u) text.now) }
    ensures fault { IfErr result (λ e. first_unit text.now ≡ Err (block_fault e)) }
{
    let plain = plain_len(percent_signs, text);
    if plain == 0 {
        return first_unit(text);
    }
    let (bytes, _) = text.split_at(plain);
    Ok(LineOrBlock {
        content: &[],
        bytes,
        is_block: false,
    })
}
