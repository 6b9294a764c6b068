// Caps written to a writer that fails in mid-stream: the error comes back, and what was written is
// a beginning.

use cap_text::Cap;
use std::alloc::Global;
use std::io;
use std::io::Write;
use std::test::Fail;

// A writer that takes one byte a call, and fails at the call after so many.
#[derive(Drop)]
struct OneByOne {
    written: Vec<u8>,
    left: usize,
}

impl io::Write for OneByOne {
    fn write(&mut self, buf: &[u8]) -> io::Result<usize> {
        if self.left == 0 {
            return Err(io::Error::from(io::ErrorKind::BrokenPipe));
        }
        let Some(first) = buf.first() else {
            return Ok(0);
        };
        self.left -= 1;
        self.written.push(*first)?;
        Ok(1)
    }

    fn flush(&mut self) -> io::Result<()> {
        Ok(())
    }
}

// Whether a writer that fails after so many bytes of the cap's text got just those, and its error
// came back; and where it takes the whole text, no error did.
fn tells_failure(alloc: Global, cap: &Cap, text: &[u8], left: usize) -> bool {
    let mut writer = OneByOne {
        written: Vec::new(alloc),
        left,
    };
    let is_told = match write!(writer, "{cap}") {
        Ok(()) => left >= text.len(),
        Err(error) => left < text.len() && error.kind() == io::ErrorKind::BrokenPipe,
    };
    is_told && Some(writer.written.as_slice()) == text.get(..left.min(text.len()))
}

#[test]
fn a_cap_is_cut_where_its_writer_fails(rt: HostRuntime) -> Result<(), Fail> {
    let texts = [
        "URI:CHK:5ervuplwjtqf5caeknmrecgz54:24yuguv5na3h27x2i5w2i77yy5yujv6vcnbabzeljhzb4gaqqzyq:3\
            :10:56",
        "URI:CHK-Verifier:btqtqeoqjcl3aeqkqmueqgjgiy:24yuguv5na3h27x2i5w2i77yy5yujv6vcnbabzeljhzb4\
            gaqqzyq:3:10:56",
        "URI:LIT:nbswy3dp",
    ];
    for text in texts {
        let cap = Cap::parse(text.as_bytes())?;
        for left in 0..=text.len() {
            assert!(rt;
                tells_failure(rt.alloc(), &cap, text.as_bytes(), left),
                "{text} {left}"
            );
        }
    }
    Ok(())
}
