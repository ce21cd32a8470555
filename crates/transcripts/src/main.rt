//! Plays a transcript, which it reads from standard input: files, command lines of the program over them, and the lines that each
//! must write. What differs is printed, and at last how many command lines were right and how many wrong.
//!
//! A line that begins with a mark ends what stood before it. An empty line right before a mark, or at the end, belongs to nothing.
//!
//!     # ..        a comment
//!     == NAME     the lines that follow are the text of the file NAME
//!     $ WORDS     `ubq WORDS` over these files writes the lines that follow; standard input is the file `-`. What stands between
//!                 two single quotes is one word
//!     @K WORDS    the same, where the place of its table file fails at its K-th call
//!     @crash K IMAGE WORDS
//!                 the same, where it is stopped at that call: its table file is then what a crash leaves: all that is `seen`, with
//!                 what wasn't synced `lost`, or with each page that wasn't synced `torn`
//!     @text BYTES WORDS
//!                 the same, where the data of a `load` give so many bytes, and then can't be read on
//!     /ROOM WORDS the same, where the output has room for ROOM bytes alone
//!     2/ROOM WORDS
//!                 the same, where the second output has
//!     > SQL       the line SQL as a script on the table of `t.csv`: two dimensions, two rows a page
//!     ? STATUS    the command line above ends with this status, and not with 0
//!     2> LINE     the command line above writes this line to its second output; with no such line it writes nothing there
//!     >> LINE     among the lines that the command line above writes is this one: the others aren't told
//!     $! WORDS    of `ubq WORDS` over these files, which has ended with the status of the mark ?, people at a terminal are told the
//!                 lines that follow
//!     = FROM TO   the table file TO is made of the pages of the table file FROM
//!     ~ FILE OFFSET BYTE BYTE ..
//!                 these bytes, in decimal, are put into the table file FILE, from this offset on
//!     | FILE PAGES
//!                 the table file FILE is cut to so many pages of 4096 bytes
//!
//!     ^ NAME      the file NAME is put into a folder of the system, as it stands; so is the journal beside a table file, as NAME-journal
//!     : WORDS     `ubq WORDS` over the files of that folder writes the lines that follow; the mark ? tells its status
//!     * NAME ..   the command line above changes or makes these files of the folder. Of all others that were put there, or that
//!                 such a command line names, it must leave each byte as it was, and make none
//!
//! A table file that isn't there, or has no such place, counts as a command line that is wrong.
//!
//! Among the lines of a text `+ COUNT TEXT` is TEXT so many times, with no line feed, and `% COUNT` is the numbers from 0 to
//! COUNT - 1, each on a line of its own. All that is written is taken one byte at a time, and nothing may be written after a
//! write that failed.
#![tactic(auto)]

mod bench;
mod crash;
mod damage;
mod folder;
mod marks;
mod narrow;
mod player;

use player::Player;
use std::io;

fn main(rt: HostRuntime) -> io::Result<()> {
    let text = io::read_to_string(rt.alloc(), rt.reader())?;
    let mut player = Player::new(rt.alloc());
    player.play(&rt, text.as_str())
}
