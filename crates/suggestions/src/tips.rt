//! Tips on words that the command doesn't take.

/// Words, and the tip that is printed about any of them. Options are written as clap names them, such as `-d` for `-d1`.
pub(crate) struct Tip {
    pub(crate) words: &'static [&'static str],
    pub(crate) text: &'static str,
}

/// A table of tips. Each row has words and their tip, written like an arm of a `match`.
macro_rules! tips {
    ($($($word:literal)|+ => $text:literal,)+) => {
        &[$(crate::tips::Tip { words: &[$($word),+], text: $text }),+]
    };
}

pub(crate) use tips;

/// The tip on a word, if the table has one.
pub(crate) fn tip_in(tips: &[Tip], word: &str) -> Option<&'static str> {
    let tip = tips.iter().find(|tip| tip.words.contains(&word))?;
    Some(tip.text)
}

pub(crate) const RANGES_AFTER_PAGES: &str = "ranges are one word, as in: --pages 1,3,5-8";

/// Tips on options without a value, for use if a word that isn't a file follows them.
pub(crate) const NO_VALUE: &[Tip] = tips! {
    "--rtl" =>
        "--rtl has no value, and lays pages from right to left; leave it out for the other direction",
    "--cover" =>
        "--cover has no value: the document's own first and last pages become the cover, as in: impose booklet --cover in.ps out.ps",
    "--duplex" | "--long-edge" | "--same-scale" | "--odd" | "--even" | "--reverse" =>
        "this option has no value: leave out the word after it",
};

/// Tips for a command whose first argument is missing.
pub(crate) const MISSING: &[Tip] = tips! {
    "nup" => "the number of pages comes after nup, as in: impose nup 2 in.ps out.ps",
    "cards" => "the number of pages comes after cards, as in: impose cards 8 in.ps out.ps",
    "stack" => "the number of pages comes after stack, as in: impose stack 2 in.ps out.ps",
    "notes" => "the number of pages comes after notes, as in: impose notes 3 in.ps out.ps",
    "poster" =>
        "columns and rows of sheets come after poster, as in: impose poster 2x2 in.ps out.ps",
    "select" => "the pages come after select, and 1- are all: impose select 1- --odd in.ps out.ps",
    "spec" => "the specification comes after spec, as in: impose spec 0,0 in.ps out.ps",
};

/// Tips on a value that begins with a minus sign, after an option or as the first argument of a command.
pub(crate) const SIGNS: &[Tip] = tips! {
    "--turn" => "a turn has a name, as in: --turn left (by 90 degrees)",
    "--turned" => "a side has a name, as in: --turned left",
    "--margin" | "--gap" | "--trim" | "--creep" | "--border" | "--overlap" | "--numbers" =>
        "a length is not below 0, as in: --gap 5mm",
    "-p" | "--paper" | "--sheet" => "the sides of a paper are above 0, as in: --paper 210x297mm",
    "--scale" => "a scale is above 0, as in: --scale 0.7",
    "--numbers-from" => "the first number has no sign, as in: --numbers 10pt --numbers-from 3",
    "--skip" => "a number of cells has no sign, as in: --skip 3",
    "nup" => "the number of pages has no sign, as in: impose nup 2 in.ps out.ps",
    "cards" => "the number of pages has no sign, as in: impose cards 8 in.ps out.ps",
    "stack" => "the number of pages has no sign, as in: impose stack 2 in.ps out.ps",
    "notes" => "the number of pages has no sign, as in: impose notes 3 in.ps out.ps",
    "poster" =>
        "the columns and rows of sheets have no sign, as in: impose poster 2x2 in.ps out.ps",
    "spec" => "a specification that begins with a minus is written with its modulo: 1:-0",
    "--pages" | "booklet" | "zine" | "select" =>
        "a range begins with the number of a page: 1-3 are the first three, and _3- the last three",
};

/// Tips on options that `booklet` doesn't have, or has under another name than other programs.
pub(crate) const FOR_BOOKLETS: &[Tip] = tips! {
    "--nup" | "--n-up" | "-N" | "--up" =>
        "a booklet always has two pages on each side of a leaf: leave this option out",
    "--order" =>
        "the order of a booklet is that in which one reads it; one that is bound at the right takes --rtl",
    "--duplex" => "a booklet is for printing on both sides without an option: leave it out",
    "-s" | "-n" | "--sheets" | "--leaves" =>
        "leaves are folded some at a time by a number of pages, as in: impose booklet --signature 16 in.ps out.ps",
};

/// Tips on options that `stack` doesn't have, or has under another name than other programs.
pub(crate) const FOR_STACKS: &[Tip] = tips! {
    "--twoside" | "--twosided" | "--two-sided" | "--double-sided" | "--both-sides" =>
        "leaves that are printed on both sides are stacked by: impose stack 2 --duplex in.ps out.ps",
    "--long-edge" | "--short-edge" =>
        "the edge on which leaves are flipped is printed by: impose stack 2 --duplex --plan in.ps",
    "--cut" | "--cuts" =>
        "marks to cut are drawn by: impose stack 2 --gap 4mm --marks cut in.ps out.ps",
};

/// Tips on options that `cards` doesn't have, or has under another name than other programs.
pub(crate) const FOR_CARDS: &[Tip] = tips! {
    "--cut" | "--cuts" =>
        "marks to cut are drawn by: impose cards 8 --gap 4mm --marks cut in.ps out.ps",
};

/// Tips on options that `zine` doesn't have, or has under another name than other programs.
pub(crate) const FOR_ZINES: &[Tip] = tips! {
    "--long-edge" | "--short-edge" | "--duplex" | "--twoside" | "--two-sided" | "--double-sided" =>
        "a zine is printed on one side of its leaf: leave this option out",
};

/// Tips on options that `poster` doesn't have, or has under another name than other programs.
pub(crate) const FOR_POSTERS: &[Tip] = tips! {
    "--size" | "--poster-size" =>
        "the size of a poster comes after poster, as in: impose poster a2 in.ps out.ps",
    "--gap" | "--spacing" =>
        "sheets of posters overlap, as in: impose poster 2x2 --overlap 1cm in.ps out.ps",
};

/// Tips on options that `select` doesn't have, or has under another name than other programs.
pub(crate) const FOR_SELECTIONS: &[Tip] = tips! {
    "--pages" => "the pages come after select, as in: impose select 1-3 in.ps out.ps",
    "-r" => "pages go backwards by: impose select 1- --reverse in.ps out.ps",
    "-o" =>
        "every second page is taken by --odd, as in: impose select 1- --odd in.ps out.ps; the sheets go to the second file, without an option",
    "--scale" => "pages are scaled by: impose nup 1 --scale 0.7 in.ps out.ps",
};

/// Tips on options that `spec` doesn't have, or has under another name than other programs.
pub(crate) const FOR_SPECIFICATIONS: &[Tip] = tips! {
    "--turn" =>
        "a specification turns pages itself, as to the left by: impose spec 'L(1h,0)' --sheet a4-landscape in.ps out.ps",
    "--scale" => "a specification scales pages itself, as in: impose spec 0@.7 in.ps out.ps",
    "-s" => "the row is put into signatures by: impose spec 0 --signature 16 in.ps out.ps",
};

/// Tips on options that only some commands have, for use with a command that doesn't have them.
pub(crate) const OF_COMMANDS: &[Tip] = tips! {
    "--order" =>
        "nup, cards and stack have an order, as in: impose nup 4 --order down-right in.ps out.ps",
    "--turned" =>
        "nup, cards and stack have it, as in: impose nup 4 --turned left in.ps out.ps; pages are turned themselves by --turn left",
    "--scale" =>
        "nup, booklet, cards, stack and poster have a scale, as in: impose nup 2 --scale 0.7 in.ps out.ps",
    "--skip" =>
        "nup and cards leave cells empty that are used already, as in: impose cards 3x8 --skip 5 in.ps out.ps",
    "--same-scale" =>
        "pages of posters, selections and specifications have their own scales; others have one by: impose nup 2 --same-scale in.ps out.ps",
    "--marks" =>
        "zines, notes, selections and specifications have no marks; the others have, as in: impose cards 8 --marks cut in.ps out.ps",
    "--numbers" | "--numbers-from" =>
        "pages of posters, zines and specifications have no numbers; the others have, as in: impose nup 2 --numbers 10pt in.ps out.ps",
    "--margin" =>
        "selections and specifications have no margins; the others have, as in: impose nup 1 --margin 1cm in.ps out.ps",
    "--gap" =>
        "posters, selections and specifications have no gaps; the others have, as in: impose nup 2 --gap 5mm in.ps out.ps",
    "--trim" =>
        "zines, posters, selections and specifications trim no pages; the others do, as in: impose nup 1 --trim 15mm in.ps out.ps",
    "--overlap" => "sheets of posters overlap, as in: impose poster 2x2 --overlap 1cm in.ps out.ps",
    "--rtl" =>
        "nup, cards, stack, booklet and zine go from right to left, as in: impose nup 4 --rtl in.ps out.ps",
    "--creep" =>
        "leaves of booklets creep, as in: impose booklet --gap 1cm --creep 2mm in.ps out.ps",
    "--signature" =>
        "leaves of booklets are folded some at a time, as in: impose booklet --signature 16 in.ps out.ps",
    "--cover" =>
        "the last page of a booklet is at its back by: impose booklet --cover in.ps out.ps",
    "--duplex" =>
        "for printing on both sides stack alone needs it, as in: impose stack 2 --duplex in.ps out.ps",
    "--long-edge" =>
        "backs are turned for a printer that flips on the long edge by: impose nup 2 in.ps | impose spec '2:0,1U(1w,1h)' - out.ps",
};
