//! Tips on commands and options of other programs.
use crate::tips::{Tip, tip_in, tips};

/// Tips on words in the place of a command. Other programs have commands of these names, or people expect such commands.
pub(crate) const FOR_COMMANDS: &[Tip] = tips! {
    "version" => "the version is printed by: impose --version",
    "man" | "manual" | "--man" | "--manual" | "-?" | "--usage" =>
        "the help is printed by: impose --help; that of a command by: impose booklet --help; and the manual by: man impose",
    "info" | "show" | "list" | "plan" | "preview" =>
        "sheets are listed by --plan, as in: impose nup 2 --plan in.ps",
    "insert" | "add" | "blank" =>
        "a blank page is named among the others, as in: impose select 1,blank,2- in.ps out.ps",
    "convert" | "pdf" => "PDFs are put on sheets by: impose-pdf booklet in.pdf out.pdf",
    "tile" =>
        "several pages are put on a sheet by: impose nup 2 in.ps out.ps; a page over several sheets by: impose poster 2x2 in.ps out.ps",
    "rotate" | "turn" =>
        "pages are turned by --turn, as to the left by: impose select 1- --turn left in.ps out.ps",
    "trifold" | "tri-fold" | "threefold" | "z-fold" =>
        "a leaflet that is folded in three is: impose nup 3x1 --sheet a4-landscape --pages 5,6,1,2,3,4 in.ps out.ps",
    "watermark" | "stamp" =>
        "words across each page of a PDF are drawn by: impose-pdf nup 2 --stamp DRAFT in.pdf out.pdf",
    "header" | "footer" | "text" =>
        "page numbers are drawn by: impose nup 2 --numbers 10pt in.ps out.ps; other words, on PDFs alone, by: impose-pdf nup 2 --text head:DRAFT in.pdf out.pdf",
    "duplicate" | "duplicates" | "copy" | "copies" | "repeat" =>
        "each page is on a sheet several times by: impose cards 2 in.ps out.ps",
    "mirror" | "reflect" | "flip" => "pages are mirrored by the printer: lp -o mirror out.ps",
    "center" | "centre" =>
        "pages are in the middle of their sheets by: impose nup 1 --sheet a4 in.ps out.ps",
    "split" | "cut" =>
        "some of the pages are taken by: impose select 1-3 in.ps out.ps; each page is put over several sheets by: impose poster 2x1 in.ps out.ps",
    "scale" | "resize" | "shrink" | "enlarge" | "fit" | "psresize" =>
        "pages are scaled to another paper by: impose nup 1 --sheet a5 in.ps out.ps",
    "merge" | "join" | "concat" | "cat" =>
        "PDFs are joined by: impose-pdf select 1- one.pdf two.pdf out.pdf; PostScript by: gs -q -sDEVICE=ps2write -o both.ps one.ps two.ps",
    "crop" | "trim" => "the edges of pages are left out by: impose nup 1 --trim 15mm in.ps out.ps",
    "handout" | "handouts" =>
        "lines for notes are drawn beside pages by: impose notes 3 in.ps out.ps",
    "label" | "labels" =>
        "labels are columns and rows of pages, as in: impose nup 3x8 --scale 1 --sheet a4 in.ps out.ps",
    "signature" | "signatures" =>
        "leaves are folded some at a time by: impose booklet --signature 16 in.ps out.ps",
    "book" | "psbook" | "pdfbook" | "pdfbook2" | "brochure" | "broschure" | "leaflet"
    | "pamphlet" | "fold" | "folded" | "folding" => "a booklet is made by: impose booklet in.ps out.ps",
    "psnup" | "pdfnup" | "pdfjam" | "combine" =>
        "several pages are put on a sheet by: impose nup 2 in.ps out.ps",
    "psselect" | "pages" | "page" | "extract" | "range" | "delete" =>
        "some of the pages are taken by: impose select 1-3,5- in.ps out.ps",
    "pstops" => "a specification comes after spec, as in: impose spec 0,0 in.ps out.ps",
    "reverse" => "pages go backwards by: impose select 1- --reverse in.ps out.ps",
    "odd" | "even" =>
        "every second page is taken by: impose select 1- --odd in.ps out.ps, or by --even",
    "number" | "numbers" => "pages are numbered by: impose select 1- --numbers 10pt in.ps out.ps",
    "print" | "lp" | "lpr" | "duplex" =>
        "sheets are printed by: impose booklet in.ps | lp -o sides=two-sided-short-edge",
};

/// The tip on an option of other programs, if one is known.
pub(crate) fn tip_on_other(word: &str) -> Option<&'static str> {
    tip_in(OF_OTHERS, word)
        .or(tip_in(FURTHER, word))
        .or(tip_in(OF_PRINTING, word))
        .or(tip_in(OF_SHOPS, word))
}

/// Tips on options of other programs.
const OF_OTHERS: &[Tip] = tips! {
    "--no-crop" | "--no-trim" | "--nocrop" =>
        "pages are trimmed by --trim alone: leave this option out",
    "--no-landscape" | "--portrait" =>
        "a sheet is upright unless its paper is named with -landscape, as in: --sheet a4",
    "--collate" | "--printer" | "--dpi" | "--resolution" | "--quality" | "--color" | "--colour"
    | "--staple" | "--stapler" =>
        "options of the printer are given to lp, as in: impose booklet in.ps | lp -o sides=two-sided-short-edge",
    "--watermark" | "--stamp" =>
        "words across each page of a PDF are drawn by: impose-pdf nup 2 --stamp DRAFT in.pdf out.pdf",
    "--title" | "--header" | "--footer" | "--text" | "--font" =>
        "page numbers are drawn by: impose nup 2 --numbers 10pt in.ps out.ps; other words, on PDFs alone, by: impose-pdf nup 2 --text head:DRAFT in.pdf out.pdf",
    "--lines" => "notes draws lines without an option, as in: impose notes 3 in.ps out.ps",
    "--no-guard" | "--noguard" => "the guard is left out by --unguarded",
    "--rotate" | "--angle" | "--rotation" =>
        "pages are turned by --turn, as to the left by: impose select 1- --turn left in.ps out.ps",
    "--short-edge" =>
        "without an option a booklet is for printers that flip on the short edge: leave it out",
    "--copies" | "--repeat" | "--each" =>
        "each page is on a sheet several times by: impose cards 2 in.ps out.ps; and the document several times after itself by --pages 1-,1-",
    "--verbose" | "-v" => "there is no longer report; --plan prints which page is where",
    "--dry-run" => "--plan prints which page is where on each sheet, and imposes nothing",
    "-n" | "-N" | "--nup" | "--n-up" | "--up" | "--number-up" | "--per-page" | "--pages-per-sheet" =>
        "the number of pages comes after nup, as in: impose nup 4 in.ps out.ps; --plan prints which page is where",
    "-f" =>
        "files have no option, as in: impose nup 2 in.ps out.ps; another program's document is replaced by --replace; a sheet on its side is --sheet a4-landscape",
    "--landscape" | "--orientation" =>
        "a sheet on its side is named so, as in: --sheet a4-landscape",
    "-l" =>
        "pages that lie on their sides are laid by: impose nup 2 --turned right in.ps out.ps; a sheet on its side is named so, as in: --sheet a4-landscape",
    "-r" =>
        "pages that lie on their sides are laid by: impose nup 2 --turned left in.ps out.ps; all go backwards by --reverse",
    "-R" | "--backwards" | "--reverse-order" | "--outputorder" =>
        "pages go backwards by --reverse, as in: impose select 1- --reverse in.ps out.ps",
    "-e" => "every second page is taken by --even, as in: impose select 1- --even in.ps out.ps",
    "--odd-pages" | "--even-pages" | "--page-set" =>
        "every second page is taken by --odd or --even, as in: impose select 1- --odd in.ps out.ps",
    "--version" => "the version is printed without a command: impose --version",
    "-s" | "--zoom" | "--factor" =>
        "the scale of pages is named by --scale, as in: impose nup 2 --scale 0.7 in.ps out.ps",
    "-c" | "--column" | "--column-major" =>
        "pages go down the columns by: impose nup 4 --order down-right in.ps out.ps",
    "--rows" | "--columns" | "--cols" | "--grid" | "--layout" =>
        "columns and rows are written as one word, as in: impose nup 2x3 in.ps out.ps",
    "-m" | "-t" | "--margins" =>
        "the edges of sheets are kept free by --margin, as in: impose nup 2 --margin 1cm in.ps out.ps",
};

/// Further tips on options of other programs. One table with all tips would be too long for the prover.
const FURTHER: &[Tip] = tips! {
    "-b" | "--delta" | "--spacing" | "--gutter" | "--padding" | "--space" =>
        "room between pages is kept by --gap, as in: impose nup 4 --gap 5mm in.ps out.ps",
    "-w" | "-W" | "-H" | "--width" | "--height" =>
        "a size is one word, that of the sheets as in: --sheet 210x297mm, and that of the pages after --paper",
    "--offset" | "--shift" | "--move" =>
        "pages are moved by a specification, as in: impose spec '0(5mm,0)' in.ps out.ps",
    "--clip" | "--crop" | "--viewport" | "--cut" =>
        "the edges of pages are left out by --trim, as in: impose nup 2 --trim 15mm in.ps out.ps",
    "--bleed" | "--bleeds" =>
        "a bleed is part of the page: name its whole size by --paper, and cut some of it off by --trim 3mm",
    "--crop-marks" | "--cropmarks" | "--cut-marks" | "--cutmarks" =>
        "marks to cut are drawn by --marks cut, as in: impose cards 8 --gap 4mm --marks cut in.ps out.ps",
    "--fold-marks" | "--foldmarks" | "--fold" =>
        "marks to fold are drawn by: impose booklet --marks fold in.ps out.ps",
    "--right-to-left" | "--righttoleft" | "--direction" =>
        "pages go from right to left by --rtl, as in: impose booklet --rtl in.ps out.ps",
    "--binding" | "--binding-side" | "--binding-edge" | "--bind-right" | "--bind" =>
        "a booklet is bound at the left without an option, and at the right by: impose booklet --rtl in.ps out.ps",
    "--twoside" | "--twosided" | "--two-sided" | "--double-sided" | "--sides" =>
        "which sides are printed is for the printer to know, as in: impose booklet in.ps | lp -o sides=two-sided-short-edge",
    "--tumble" | "--long" | "--flip" | "--flip-other-edge" | "--flip-long-edge"
    | "--flip-on-long-edge" | "--rotate-backs" | "--turn-backs" =>
        "a booklet flips on the short edge; on the long one by: impose booklet --long-edge in.ps out.ps",
    "--fit" | "--scaling" | "--fit-page" | "--fit-to-page" | "--shrink" | "--scale-to-fit"
    | "--autoscale" | "--noautoscale" | "--no-scale" | "--actual-size" =>
        "pages are as large as they fit; in their own size by: impose nup 2 --scale 1 --sheet a3 in.ps out.ps",
    "--center" | "--centre" | "--centered" | "--align" =>
        "pages are in the middle of their cells without an option: leave it out",
    "--first" | "--first-page" | "--firstpage" | "--last" | "--last-page" | "--lastpage"
    | "--from" | "--to" | "--start" | "--end" | "--page" | "--range" | "--ranges"
    | "--page-range" | "--page-ranges" =>
        "pages are named by their numbers, as in: --pages 3-8, and after select without an option",
    "--booklet" | "--book" | "--brochure" => "booklet is a command: impose booklet in.ps out.ps",
    "--poster" | "--poster-size" | "--tile" | "--tiles" =>
        "poster is a command: impose poster 2x2 in.ps out.ps",
    "--back-cover" | "--backcover" =>
        "the last page of a booklet is at its back by: impose booklet --cover in.ps out.ps",
    "--force" | "--overwrite" =>
        "an OUTFILE that another program wrote is replaced by --replace, as in: impose nup 2 --replace in.ps out.ps",
    "--openright" | "--open-right" =>
        "a blank before the first page opens at the right: --pages blank,1-",
    "--cover" =>
        "a cover for other paper is: impose booklet --pages 1-2,_2-_1 in.ps out.ps; the rest is --pages 3-_3",
    "--mirror" | "--reflect" =>
        "pages are mirrored by the printer: lp -o mirror out.ps",
};

/// Tips on further words for printing, such as those of CUPS, pdfjam and printing shops.
const OF_PRINTING: &[Tip] = tips! {
    "--number-up-layout" | "--page-order" | "--columnstrict" =>
        "the order of the cells is named by --order, as in: impose nup 4 --order down-right in.ps out.ps",
    "--orientation-requested" =>
        "a sheet on its side is named so, as in: --sheet a4-landscape; pages are turned by --turn left",
    "--rotateoversize" =>
        "pages wider than high are turned by --turn wide, as in: impose nup 2 --turn wide in.ps out.ps",
    "--doublepages" | "--doublepagestwist" | "--doublepagestwistodd" | "--duplicatepages" =>
        "each page is on a sheet several times by: impose cards 2 in.ps out.ps",
    "-a" | "--a4paper" | "--a4" | "--a5paper" | "--letterpaper" | "--letter" | "--templatesize"
    | "--sheet-size" | "--sheetsize" | "--a3paper" | "--a3" | "--b5paper" | "--legalpaper"
    | "--executivepaper" =>
        "the paper of the sheets comes after --sheet, as in: --sheet a4",
    "-P" | "--size" | "--papersize" | "--paper-size" | "--pagesize" | "--page-size" | "--media"
    | "--format" | "--paper_size" | "--fitpaper" | "--paper-format" | "--papertype" | "--paper-type" =>
        "the paper of the pages comes after --paper, that of the sheets after --sheet, as in: --sheet a4",
    "--exclude" | "--skip-pages" | "--omit" =>
        "pages are left out by naming the others, as in: impose nup 2 --pages 1,3- in.ps out.ps",
    "--blank" | "--insert" | "--blank-pages" | "--blanks" =>
        "a blank page is named among the others, as in: --pages 1,blank,2-",
    "--sheets" | "--pages-per-signature" | "--signature-size" | "--leaves" | "--sheets-per-booklet" =>
        "leaves are folded some at a time by a number of pages, as in: impose booklet --signature 16 in.ps out.ps",
    "--inner-margin" | "--outer-margin" | "--top-margin" | "--bottom-margin" | "--left-margin"
    | "--right-margin" | "--inner" | "--margin-left" | "--margin-right" | "--margin-top"
    | "--margin-bottom" | "--margin-inner" =>
        "margins are named by their edges, as in: impose nup 1 --margin inner=2cm,top=1cm in.ps out.ps",
    "--hspace" | "--vspace" =>
        "room between pages is kept by --gap, across and upwards, as in: impose nup 4 --gap 5mm,1cm in.ps out.ps",
    "--trim-left" | "--trim-right" | "--trim-top" | "--trim-bottom" | "--crop-box" =>
        "all edges of pages are left out by one length, as in: impose nup 2 --trim 15mm in.ps out.ps",
    "-d" | "--frame" | "--frames" | "--draw" | "--line" | "--page-border" | "--border-width"
    | "--line-width" | "--separator" | "--separators" =>
        "a line round each page is drawn by --border, as in: impose nup 2 --border 1pt in.ps out.ps",
    "--pagenumbers" | "--page-numbers" | "--number" | "--numbering" | "--pagenumber" | "--bates" =>
        "pages are numbered by --numbers, as in: impose nup 2 --numbers 10pt in.ps out.ps",
    "--resize" => "pages are scaled to another paper by: impose nup 1 --sheet a5 in.ps out.ps",
    "-i" | "--input" | "--infile" =>
        "the pages come from the first file, without an option: impose nup 2 in.ps out.ps",
    "--silent" => "the report is left out by -q, as in: impose nup 2 -q in.ps out.ps",
    "--register-marks" | "--registration-marks" | "--color-bars" | "--colour-bars" =>
        "marks are drawn for folds and cuts alone, as in: impose cards 8 --marks cut in.ps out.ps",
};

/// Tips on further words, such as those of printing shops and of tools for PDFs.
const OF_SHOPS: &[Tip] = tips! {
    "--saddle-stitch" | "--saddle" | "--stitch" | "--stapled" =>
        "booklet is a command, and its leaves are stapled at the fold without an option: impose booklet in.ps out.ps",
    "--perfect-bound" | "--perfect-binding" | "--perfect" | "--glued" | "--sewn" =>
        "leaves that are sewn or glued are folded some at a time: impose booklet --signature 16 in.ps out.ps",
    "--line-height" | "--line-spacing" | "--line-distance" =>
        "lines for notes are 24 points apart, and no option changes that: impose notes 3 in.ps out.ps",
    "--notes-right" | "--lines-right" | "--notes" =>
        "notes draws lines at the right of pages without an option, as in: impose notes 3 in.ps out.ps",
    "--black-and-white" | "--bw" | "--mono" | "--monochrome" | "--gray" | "--grayscale" | "--grey"
    | "--greyscale" =>
        "colours become grey by: gs -q -sDEVICE=ps2write -sColorConversionStrategy=Gray -o grey.ps in.ps; and for a PDF with pdfwrite in place of ps2write",
    "--password" | "--decrypt" | "--unlock" | "--userpw" =>
        "a password is taken off by another program: qpdf --decrypt --password=WORD in.pdf plain.pdf",
    "--compress" | "--gzip" | "--compression" =>
        "PostScript is compressed by: impose .. | gzip > out.ps.gz; and a PDF is without an option",
    "--suffix" | "--prefix" | "--outdir" | "--output-dir" | "--directory" =>
        "the sheets go to the last file, whatever its name: impose nup 2 in.ps out.ps",
    "--merge" | "--join" | "--concat" =>
        "PDFs are joined by: impose-pdf select 1- one.pdf two.pdf out.pdf; PostScript by: gs -q -sDEVICE=ps2write -o both.ps one.ps two.ps",
    "->" | "=>" => "OUTFILE comes after INFILE without an arrow: impose nup 2 in.ps out.ps",
};
