//! The search for the end of a head, which goes on where it stood as bytes come.
ghost use Rattle.std.specs.Prelude.{◌≡◌, ◌≤◌, [], length, take, IfSome};
ghost use Rattle.sq_request.specs.Endings.{head_end, IsWholeHead};
ghost use Rattle.sq_forward.specs.Searching.{IsSought, SoughtAll, ends_by, begun_by, line_by};
ghost use Rattle.sq_forward.specs.declared.searching.LinePart.TheVariants.{Nothing};

/// What came of a line that has not ended.
#[derive(Clone, Copy)]
pub(crate) enum LinePart {
    Nothing,
    /// One CR alone.
    Return,
    Bytes,
}

/// How far the search for the end of a head has come.
#[derive(Drop)]
pub(crate) struct HeadSearch {
    // So many bytes were looked at.
    at: usize,
    // A line with bytes has ended.
    begun: bool,
    line: LinePart,
}

impl HeadSearch {
    pub(crate) fn new() -> HeadSearch
        ensures at { result.at ≡ 0 }
        ensures sought { IsSought [] result.begun result.line }
    {
        HeadSearch {
            at: 0,
            begun: false,
            line: LinePart::Nothing,
        }
    }

    /// The end of the head at the front of these bytes. They begin with those that were looked at before, of
    /// which none is looked at again. It takes no memory.
    pub(crate) fn look(&mut self, bytes: &[u8]) -> Option<usize>
        requires within { self.old.at ≤ length bytes.now }
        requires sought { IsSought (take self.old.at bytes.now) self.old.begun self.old.line }
        ensures place { result ≡ head_end bytes.now }
        ensures inside { IfSome result (λ n. n ≤ length bytes.now) }
        ensures whole { IfSome result (λ n. IsWholeHead (take n bytes.now)) }
        ensures sought { SoughtAll bytes.now self.new.at self.new.begun self.new.line result }
    {
        for at in self.at..bytes.len() {
            if self.ends_by(bytes[at]) {
                return Some(at + 1);
            }
        }
        self.at = bytes.len();
        None
    }

    // Whether a head ends with this byte, the next one.
    fn ends_by(&mut self, byte: u8) -> bool
        ensures ends { result ≡ ends_by self.old.begun self.old.line byte }
        ensures begun { self.new.begun ≡ begun_by self.old.begun self.old.line byte }
        ensures line { self.new.line ≡ line_by self.old.line byte }
        ensures at { self.new.at ≡ self.old.at }
    {
        let filled = self.line == LinePart::Bytes;
        if byte != b'\n' {
            self.line = if byte == b'\r' && self.line == LinePart::Nothing {
                LinePart::Return
            } else {
                LinePart::Bytes
            };
            return false;
        }
        self.line = LinePart::Nothing;
        if filled {
            self.begun = true;
            return false;
        }
        self.begun
    }
}
