//! Heads parsed as spans.
ghost use Rattle.std.specs.Prelude.{◌≡◌, ◌<◌, length, map, All, IfOk, IfSome, IfNone};
ghost use Rattle.std.specs.List.{count_by};
ghost use Rattle.httparse.specs.Spans.{header_bytes, IsHeaderWithin};
ghost use Rattle.sq_base.specs.Lines.{is_lf};
ghost use Rattle.sq_request.specs.Spans.{field_pair, FitsIn, CoversHead, HasMoreThan};

use httparse::Status;
use httparse::spans::{HeaderSpan, RequestSpans, parse_request};
use sq_base::{Field, Fields, Text, WantOfMemory};
use std::alloc::Global;

/// Where the parts of a head are, if the bytes are one, and nothing more, whose fields the room holds.
pub fn parse_whole(head: &[u8], room: &mut [HeaderSpan]) -> Option<RequestSpans>
    ensures found { IfSome result (CoversHead head.now room.new) }
    ensures within { IfSome result (FitsIn (length head.now) room.new) }
    ensures none { IfNone result (HasMoreThan (length room.old) head.now) }
{
    match parse_request(head, room) {
        Ok(Status::Complete(spans)) => {
            if spans.len < head.len() {
                None
            } else {
                Some(spans)
            }
        }
        Ok(Status::Partial) => None,
        Err(_) => None,
    }
}

/// How many lines end in these bytes. A head has fewer fields.
pub fn line_count(bytes: &[u8]) -> usize
    ensures { result ≡ count_by is_lf bytes.now }
{
    bytes.iter().filter(|&&byte| byte == b'\n').count()
}

/// The fields that the spans cover.
pub fn copy_fields(alloc: Global, head: &[u8], spans: &[HeaderSpan]) -> Result<Fields, WantOfMemory>
    requires { All (IsHeaderWithin (length head.now)) spans.now }
    ensures { IfOk result (λ fs. map field_pair fs ≡ map (header_bytes head.now) spans.now) }
{
    let mut fields = Fields::new(alloc);
    for span in spans {
        let name = Text::from_slice(alloc, span.name.of(head))?;
        let value = Text::from_slice(alloc, span.value.of(head))?;
        fields.push(Field { name, value })?;
    }
    Ok(fields)
}
