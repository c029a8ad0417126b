// The input of a program, up to a most.
#![tactic(auto)]

ghost use Rattle.std.specs.Prelude.{◌≡◌, take, IfOk, IfSome};

use std::alloc::Global;
use std::io;
use std::io::Read;

// The most bytes of input that a program reads.
pub const INPUT_MOST: u64 = 65_536;

// The bytes of a reader, up to the most; what follows is left unread.
pub fn read_input<R: Read + Drop>(heap: Global, reader: R) -> io::Result<Vec<u8>>
    ensures { IfOk result (λ bytes. IfSome (R.remaining reader) (λ all. bytes.items ≡ take INPUT_MOST all)) }
{
    let mut bytes = Vec::new(heap);
    let _ = reader.take(INPUT_MOST).read_to_end(&mut bytes)?;
    Ok(bytes)
}

#[cfg(test)]
mod tests {
    use super::*;
    use std::test::Fail;

    #[test]
    fn reads_to_the_most(rt: HostRuntime) -> Result<(), Fail> {
        let heap = rt.alloc();
        let long = vec![in heap; 7u8; 65_537]?;
        assert_eq!(rt; read_input(heap, long.as_slice())?.len(), 65_536);
        assert_eq!(rt; read_input(heap, b"F 1\n".as_slice())?.len(), 4);
        Ok(())
    }
}
