//! What no clause says of blocks: that the calls succeed, and how often the sink is called.

ghost use Rattle.std.specs.Prelude.{◌≡◌, [], OnOk, OnErr};
ghost use Rattle.std.specs.Io.KnownBytes.{Appends};
ghost use Rattle.pl_io.specs.Outside.{AppendsFront, joined};
ghost use Rattle.pl_io.specs.Blocks.{held_of};

use pl_io::{Blocks, Failed, MemSink, Sink};
use std::test::Fail;

/// Writes the pieces through empty blocks, to their end.
fn put_through<O: Sink>(blocks: &mut Blocks, out: &mut O, parts: &[&[u8]]) -> Result<(), Failed>
    requires { held_of blocks.old ≡ [] }
    ensures all { OnOk result (Appends (O.seen out.old).written (O.seen out.new).written (joined parts.now)) }
    ensures front { OnErr result (AppendsFront (O.seen out.old).written
        (O.seen out.new).written (joined parts.now)) }
{
    blocks.put_pieces(out, parts)?;
    blocks.finish(out)?;
    Ok(())
}

#[test]
fn short_pieces_wait(rt: HostRuntime) -> Result<(), Fail> {
    // The sink takes four bytes a call: "plan", "ning" and "s". Its third call fails.
    let cases: [(&[u64], &[u8], bool); 3] = [
        (&[], b"plannings", true),
        (&[3], b"planning", false),
        (&[1], b"", false),
    ];
    for (failing, want, whole) in cases {
        let failing = Vec::from_slice(rt.alloc(), failing)?;
        let mut sink = MemSink::new(rt.alloc(), 20, failing, 4)?;
        let mut blocks = Blocks::new(rt.alloc())?;
        let put = put_through(&mut blocks, &mut sink, &[b"plan", b"", b"ning", b"s"]);
        assert_eq!(rt; put.is_ok(), whole);
        assert!(rt; sink.written() == want);
    }
    Ok(())
}

#[test]
fn long_pieces_are_written(rt: HostRuntime) -> Result<(), Fail> {
    // A call takes all. The first writes a full block, and the second what is left of the long piece or of
    // the block.
    for (count, failing, written) in [
        (65_533, &[][..], 65_536),
        (65_534, &[2], 65_536),
        (65_534, &[], 65_537),
        (131_068, &[2], 65_536),
        (131_068, &[3], 131_071),
        (131_069, &[2], 65_536),
        (131_069, &[3], 131_072),
    ] {
        let failing = Vec::from_slice(rt.alloc(), failing)?;
        let long = vec![in rt.alloc(); b'x'; count]?;
        let mut sink = MemSink::new(rt.alloc(), 200_000, failing, 200_000)?;
        let mut blocks = Blocks::new(rt.alloc())?;
        let put = put_through(&mut blocks, &mut sink, &[b"abc", long.as_slice()]);
        assert_eq!(rt; put.is_ok(), count + 3 == written, "{count} bytes");
        assert_eq!(rt; sink.written().len(), written, "{count} bytes");
    }
    Ok(())
}
