//! Pieces of scripts, wherever a read ends.

use rt_sql_cut::{Cutter, Ending};
use std::alloc::AllocError;
use std::process::Abort;

/// A piece's text, and how it ended.
type Cut = (&'static [u8], Ending);

/// The greatest number of bytes of a piece.
const LONGEST_PIECE: usize = 65_536;

/// Scripts, each with its piece, the only one or the first, or without any.
const SCRIPTS: [(&[u8], Option<Cut>); 17] = [
    // What stands before a piece is no part of it.
    (
        b" ;\t\n\x0c\r-- x;\n;;/* z; */a b ; c",
        Some((b"a b ;", Ending::Whole)),
    ),
    (
        b"SELECT * FROM t -- y;\n; /* z; */ FOO;",
        Some((b"SELECT * FROM t -- y;\n;", Ending::Whole)),
    ),
    // A quote that is left open, and quotes and comments that hide a `;`.
    (
        b"INSERT INTO t VALUES(1,0,1,'a;--",
        Some((b"INSERT INTO t VALUES(1,0,1,'a;--", Ending::Incomplete)),
    ),
    (
        b"a ';''\";' \"';\" /* ; */ --;'\n;b",
        Some((b"a ';''\";' \"';\" /* ; */ --;'\n;", Ending::Whole)),
    ),
    // `/*/` closes no comment, and `**/` does.
    (b"a/*/;*/b;c", Some((b"a/*/;*/b;", Ending::Whole))),
    (b"/*/;*/a/**;**/b;c", Some((b"a/**;**/b;", Ending::Whole))),
    // One `-` or `/` begins a piece.
    (b"-;", Some((b"-;", Ending::Whole))),
    (b"--\n/", Some((b"/", Ending::Incomplete))),
    (b"/-/-;", Some((b"/-/-;", Ending::Whole))),
    // Dot lines end at their line feed, or with the input.
    (
        b" .view 'v; /* -- \nx",
        Some((b".view 'v; /* -- ", Ending::Whole)),
    ),
    (b".view v;", Some((b".view v;", Ending::Whole))),
    // Between pieces there is none.
    (b"", None),
    (b" ;\n", None),
    (b"-- x", None),
    (b"/* x", None),
    (b"/*/", None),
    (b"/* x *", None),
];

fn ready(cutter: &Cutter) -> Option<(&[u8], Ending)> {
    let piece = cutter.ready()?;
    Some((piece.text(), piece.ending()))
}

/// A read may end inside a quote or a comment, so the script is fed in two parts, cut after each byte in turn.
fn expect_cut(
    rt: &(impl AllocGlobal + Abort),
    script: &[u8],
    piece: Option<Cut>,
) -> Result<(), AllocError> {
    for at in 0..=script.len() {
        let mut cutter = Cutter::new(rt.alloc())?;
        let (first, rest) = script.split_at(at);
        let is_taken = cutter.feed(first) == first.len() && cutter.feed(rest) == rest.len();
        cutter.finish();
        assert!(rt; is_taken || piece.is_some());
        assert!(rt; ready(&cutter) == piece, "cut after {at} bytes");
    }
    Ok(())
}

#[test]
fn cuts_wherever_a_read_ends(rt: HostRuntime) -> Result<(), AllocError> {
    for (script, piece) in SCRIPTS {
        expect_cut(&rt, script, piece)?;
    }
    Ok(())
}

#[test]
fn takes_bytes_up_to_the_end_of_a_piece(rt: HostRuntime) -> Result<(), AllocError> {
    let mut cutter = Cutter::new(rt.alloc())?;
    assert!(rt; cutter.feed(b"SELECT 1;x") == 9);
    assert!(rt; ready(&cutter) == Some((b"SELECT 1;", Ending::Whole)));
    assert!(rt; cutter.feed(b"x") == 0);
    cutter.clear();
    let was_ready = cutter.ready().is_some();
    assert!(rt; (was_ready, cutter.feed(b"x"), cutter.ready().is_some()) == (false, 1, false));
    cutter.finish();
    assert!(rt; ready(&cutter) == Some((b"x", Ending::Incomplete)));
    cutter.clear();
    assert!(rt; cutter.ready().is_none());
    Ok(())
}

#[test]
fn passes_over_a_piece_that_is_too_long(rt: HostRuntime) -> Result<(), AllocError> {
    let mut longest = vec![in rt.alloc(); b'a'; LONGEST_PIECE - 1]?;
    longest.push(b';')?;
    let mut cutter = Cutter::new(rt.alloc())?;
    assert!(rt; cutter.feed(&longest) == LONGEST_PIECE);
    assert!(rt; ready(&cutter) == Some((longest.as_slice(), Ending::Whole)));
    cutter.clear();
    assert!(rt; (cutter.feed(b"a"), cutter.feed(&longest)) == (1, LONGEST_PIECE));
    assert!(rt; ready(&cutter) == Some((b"", Ending::TooLong)));
    cutter.clear();
    assert!(rt; cutter.feed(b"b;") == 2);
    assert!(rt; ready(&cutter) == Some((b"b;", Ending::Whole)));
    Ok(())
}
