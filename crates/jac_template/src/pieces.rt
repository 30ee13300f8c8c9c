ghost use Rattle.std.specs.Prelude.{◌≡◌, ◌≤◌, ◌+◌, ◌-◌, ◌<◌, length, drop, IfSome, IsTrue};
ghost use Rattle.jac_template.specs.Pieces.{begins_with, begins_tag, literal_length, content_length, tag_cut, first_cut};
ghost use Rattle.jac_template.specs.Quoting.{behind_byte, ends_here};

/// The kind of a piece of a template's text.
#[derive(Clone, Copy, PartialEq, Eq)]
pub enum Kind {
    Literal,
    /// `{{ content }}`
    Output,
    /// `{% content %}`
    Control,
    /// A tag that has no end.
    Endless,
}

/// The first piece of some bytes, and the bytes after it.
#[derive(Clone, Copy)]
pub struct Cut<'t> {
    pub kind: Kind,
    pub content: &'t [u8],
    pub rest: &'t [u8],
}

// Whether a byte is inside a quoted text.
#[derive(Clone, Copy, PartialEq, Eq)]
enum Quoting {
    Outside,
    Quoted,
    // After a backslash in a quoted text.
    Escaped,
}

pub fn first_cut(bytes: &[u8]) -> Cut<'_>
    ensures kind { result.kind ≡ (first_cut bytes.now).kind }
    ensures content { result.content.now ≡ (first_cut bytes.now).content }
    ensures rest { result.rest.now ≡ drop (first_cut bytes.now).size bytes.now }
    ensures size { length result.rest.now + (first_cut bytes.now).size ≡ length bytes.now }
{
    if begins_with(b'{', b'{', bytes) {
        let (_, inside) = bytes.split_at(2);
        tag_cut(Kind::Output, b'}', inside)
    } else if begins_with(b'{', b'%', bytes) {
        let (_, inside) = bytes.split_at(2);
        tag_cut(Kind::Control, b'%', inside)
    } else {
        let (content, rest) = bytes.split_at(literal_length(bytes));
        Cut {
            kind: Kind::Literal,
            content,
            rest,
        }
    }
}

// The tag with these bytes after its first two.
fn tag_cut(kind: Kind, mark: u8, inside: &[u8]) -> Cut<'_>
    ensures kind { result.kind ≡ (tag_cut kind inside.now (content_length mark inside.now)).kind }
    ensures content { result.content.now
        ≡ (tag_cut kind inside.now (content_length mark inside.now)).content }
    ensures rest { result.rest.now
        ≡ drop ((tag_cut kind inside.now (content_length mark inside.now)).size - 2) inside.now }
    ensures size { length result.rest.now
        + (tag_cut kind inside.now (content_length mark inside.now)).size ≡ length inside.now + 2 }
{
    match content_length(mark, inside) {
        Some(length) => {
            let (content, end) = inside.split_at(length);
            Cut {
                kind,
                content,
                rest: &end[2..],
            }
        }
        None => {
            let (_, rest) = inside.split_at(inside.len());
            Cut {
                kind: Kind::Endless,
                content: rest,
                rest,
            }
        }
    }
}

// The number of bytes before the first tag.
fn literal_length(bytes: &[u8]) -> usize
    ensures value { result ≡ literal_length bytes.now }
    ensures within { result ≤ length bytes.now }
{
    let mut left = bytes;
    let mut length: usize = 0;
    'bytes: while let Some((_, rest)) = left.split_first() {
        if begins_tag(left) {
            return length;
        }
        left = rest;
        length += 1;
    }
    length
}

// The number of bytes before the end of a tag.
fn content_length(mark: u8, bytes: &[u8]) -> Option<usize>
    ensures value { result ≡ content_length mark bytes.now }
    ensures within { IfSome result (λ n. n + 2 ≤ length bytes.now) }
{
    let mut quoting = Quoting::Outside;
    let mut left = bytes;
    let mut length: usize = 0;
    'bytes: while let Some((first, rest)) = left.split_first() {
        if ends_here(quoting, mark, left) {
            return Some(length);
        }
        quoting = behind_byte(quoting, *first);
        left = rest;
        length += 1;
    }
    None
}

fn ends_here(quoting: Quoting, mark: u8, bytes: &[u8]) -> bool
    ensures value { result ≡ ends_here quoting mark bytes.now }
    ensures within { IsTrue result → 2 ≤ length bytes.now }
{
    match quoting {
        Quoting::Outside => begins_with(mark, b'}', bytes),
        Quoting::Quoted => false,
        Quoting::Escaped => false,
    }
}

fn behind_byte(quoting: Quoting, byte: u8) -> Quoting
    ensures { result ≡ behind_byte quoting byte }
{
    match quoting {
        Quoting::Outside => if byte == b'"' {
            Quoting::Quoted
        } else {
            Quoting::Outside
        },
        Quoting::Quoted => if byte == b'"' {
            Quoting::Outside
        } else if byte == b'\\' {
            Quoting::Escaped
        } else {
            Quoting::Quoted
        },
        Quoting::Escaped => Quoting::Quoted,
    }
}

fn begins_tag(bytes: &[u8]) -> bool
    ensures { result ≡ begins_tag bytes.now }
{
    begins_with(b'{', b'{', bytes) || begins_with(b'{', b'%', bytes)
}

fn begins_with(first: u8, second: u8, bytes: &[u8]) -> bool
    ensures value { result ≡ begins_with first second bytes.now }
    ensures within { IsTrue result → 2 ≤ length bytes.now }
{
    match bytes {
        [a, b, ..] => *a == first && *b == second,
        _ => false,
    }
}
