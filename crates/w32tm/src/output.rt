//! What is written to: standard output, a file, or what keeps nothing.
ghost use Rattle.std.specs.Prelude.{◌≡◌, ◌<◌, length, true};
ghost use Rattle.edge_io.specs.Sink.{PutCounts, Writes};
ghost use Rattle.w32tm.specs.Output.{is_file, is_null, of_sink};

use edge_io::{NullSink, Put, Sink};

/// A sink of one of three kinds. It tells what its sink tells, and has that sink's count of failed writes.
#[derive(Drop)]
pub(crate) enum Output<O: Sink, F: Sink> {
    /// Standard output.
    Standard(O),
    /// A file.
    File(F),
    /// Nothing is kept.
    Null(NullSink),
}

impl<O: Sink, F: Sink> Sink for Output<O, F> {
    ghost use Rattle.w32tm.specs.Output.{of_sink};

    ghost written = { of_sink O.written F.written ⟦<NullSink as Sink>⟧.written };

    ghost faults = { of_sink O.faults F.faults ⟦<NullSink as Sink>⟧.faults };

    fn write(&mut self, piece: &[u8]) -> Put
        requires { 0 < length piece.now }
        ensures bytes { let written = of_sink O.written F.written ⟦<NullSink as Sink>⟧.written in
            Writes result piece.now (written self.old) (written self.new) }
        ensures cause { let faults = of_sink O.faults F.faults ⟦<NullSink as Sink>⟧.faults in
            PutCounts result (faults self.old) (faults self.new) }
        ensures null { is_null self.old ≡ true → result ≡ Put.Done }
        ensures kind { (is_null self.new ≡ is_null self.old)
            × (is_file self.new ≡ is_file self.old) }
    {
        match self {
            Output::Standard(sink) => sink.write(piece),
            Output::File(sink) => sink.write(piece),
            Output::Null(sink) => sink.write(piece),
        }
    }
}

#[cfg(test)]
mod tests {
    use super::*;
    use edge_io::ScriptSink;
    use std::test::Fail;

    #[test]
    fn outputs_of_each_kind(rt: HostRuntime) -> Result<(), Fail> {
        let alloc = rt.alloc();
        for is_file in [false, true] {
            let Ok(sink) = ScriptSink::new(alloc, vec![in alloc; 2]?, 9) else {
                assert!(rt; false, "it takes memory for 9 bytes");
                return Ok(());
            };
            let mut output: Output<ScriptSink, ScriptSink> = if is_file {
                Output::File(sink)
            } else {
                Output::Standard(sink)
            };
            for put in [Put::Done, Put::Failed, Put::Done] {
                assert_eq!(rt; output.write(b"abc"), put);
            }
            if let Output::File(sink) | Output::Standard(sink) = &output {
                assert_eq!(rt; sink.bytes(), b"abcabc".as_slice());
            }
        }
        let mut output: Output<ScriptSink, ScriptSink> = Output::Null(NullSink);
        for _ in 0..3 {
            assert_eq!(rt; output.write(b"abc"), Put::Done);
        }
        Ok(())
    }
}
