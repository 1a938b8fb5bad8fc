// A sink in memory.
ghost use Rattle.std.specs.Prelude.{◌<◌, length};

use iam_outer::{List, MemorySink, Sink};
use std::test::Fail;

fn takes(sink: &mut MemorySink, piece: &[u8]) -> Option<usize>
    requires { 0 < length piece.now }
{
    sink.write(piece).ok()
}

#[test]
fn a_sink_in_memory_takes_up_to_its_room(rt: HostRuntime) -> Result<(), Fail> {
    let mut sink = MemorySink::new(rt.alloc(), 3, List::new(rt.alloc()))?;
    assert!(rt; takes(&mut sink, b"abcd") == Some(3));
    assert!(rt; takes(&mut sink, b"d").is_none());
    assert!(rt; sink.taken() == b"abc".as_slice());
    Ok(())
}
