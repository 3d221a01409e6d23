// The help.

use say::Answer;
use streams::System;

#[inline(never)]
pub fn unknown<R: System>(rt: &R, out: &mut Answer) {
    out.error(
        rt,
        "the commands are layout, bits, write, read, look, salvage, compare, judge, explain, claim, locate and fragments; nandpage --help says more",
    );
}

pub fn all(out: &mut Answer) {
    out.put(
        "nandpage: pages of NAND flash under BCH codes, written, read and judged\n\
        \n\
        \x20 nandpage layout WORD0 WORD1                     is this layout accepted? Its fields and blocks, or the reason\n\
        \x20 nandpage bits WORD0 WORD1 POSITION              the block and exponent of a page bit, or the tail, or the mark\n\
        \x20 nandpage bits WORD0 WORD1 BLOCK EXPONENT        the position of a code bit in the page\n\
        \x20 nandpage write WORD0 WORD1 METADATA DATA PAGE   writes a page, or an image of many, from metadata and data\n\
        \x20 nandpage read WORD0 WORD1 PAGE METADATA DATA    reads a page, or a dump of many, and shows the corrected bits\n\
        \x20 nandpage look WORD0 WORD1 PAGE                  the corrected bits of a page or a dump; no file is written\n\
        \x20 nandpage salvage WORD0 WORD1 PAGE METADATA DATA LIST   as read, and the good blocks of a refused page; LIST names the others\n\
        \x20 nandpage compare WORD0 WORD1 FIRST SECOND       which blocks changed between two readings of a page, or two dumps, and where\n\
        \x20 nandpage judge WORD0 WORD1 PAGE BLOCK           the corrected bits of one block, or the zeros of an erased one\n\
        \x20 nandpage explain WORD0 WORD1                    why a layout is refused: the rule, what breaks it, the numbers compared\n\
        \x20 nandpage explain WORD0 WORD1 PAGE BLOCK         what became of one block, flip by flip, and what can be done\n\
        \x20 nandpage claim WORD0 WORD1 PAGE BLOCK EXPONENT..   are these the wrong bits of the block?\n\
        \x20 nandpage locate LEVEL FIELD N REMAINDER         the wrong bits of a word of N bits, from its remainder alone\n\
        \x20 nandpage fragments export LEVEL REMAINDER       a remainder for a hardware locator, as seven words of 32 bits\n\
        \x20 nandpage fragments import LEVEL FRAGMENT..      the remainder that such words hold\n\
        \x20 nandpage --version\n\
        \n\
        Options stand right after the command, each at most once. Of every command that takes WORD0 and WORD1: --mark WORD2, the third\n\
        layout word, by which the bytes of the factory's mark are left be; 0x10000100 is one byte at byte 4096. Of these and of\n\
        locate: --edition N, 1 or 2, with levels up to 20 or 31; 1 where none is given. Of read, look, salvage and compare: --from N and\n\
        --pages M, the pages of a dump, counted from 0; --quiet, no line for a page that is not refused. Of read: --stdout, data to\n\
        standard output, with a dash for DATA. Of salvage: --raw, a ruined block as it stands in the page, in place of bytes 0xFF. Of\n\
        bits, judge, explain and claim: --page K, page K of a dump. Of compare: --map, a character a block, which shows how much of its\n\
        level is used up (. none, 1 to 9 tenths, # all, X ruined, - erased), a line a page, of one dump or of two beside each other.\n\
        \n\
        WORD0 and WORD1 are the layout words, as 0x070A4080 0x10DA4080. Numbers are decimal, or hexadecimal after 0x.\n\
        METADATA, DATA and PAGE are files. A dash is a page on standard input or standard output, an empty METADATA or DATA that is\n\
        written to a page, or one that is not wanted from it. LEVEL is the level field, half of t; FIELD is 0 for m = 13 or 1 for\n\
        m = 14; REMAINDER is in hexadecimal, two digits a byte, highest coefficient first.\n\
        \n\
        An answer starts with reply and a number: 0 is done, another says why not, and then no file is written. Of a dump\n\
        each page with corrected bits or zeros in erased blocks has a line, each page that is refused has one, and its place in\n\
        METADATA and DATA holds bytes 0xFF. An error in the arguments or with a file is one line on standard error. The exit status is\n\
        the first reply that is not 0, 64 for wrong arguments, 74 for a file that failed; a run that fails leaves every file as it was.\n",
    );
}
