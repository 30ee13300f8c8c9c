ghost use Rattle.std.specs.Prelude.{◌≡◌, ◌≤◌, ◌++◌, IfOk};
ghost use Rattle.std.specs.String.{string_bytes};
ghost use Rattle.jac_demo.specs.Requests.{viewer_number, open_digit, join_line, add_line, list_line, demo_line, demo_text};

use jac_value::{Bytes, Memory};
use std::alloc::Global;
use std::fmt::Write;

/// The first `count` requests to the calendar of `demo_app`, as lines of an events file, each ended
/// by a line feed. Three users join first. Then every fourth request lists the events, and the
/// others add one.
pub fn demo_events(alloc: Global, count: u64) -> Result<Bytes, Memory>
    requires some { 1 ≤ count }
    requires few { count ≤ 2000 }
    ensures { IfOk result (λ text. text ≡ demo_text count) }
{
    let mut text = String::new(alloc);
    let mut number: u64 = 1;
    let mut left = count;
    'requests: while left > 0 {
        push_line(&mut text, number)?;
        number += 1;
        left -= 1;
    }
    Ok(Bytes::from_vec(text.into_bytes()))
}

#[tactic(auto, unfolding(crate::specs::Requests::demo_line))]
fn push_line(text: &mut String, number: u64) -> Result<(), Memory>
    ensures { IfOk result (λ done. string_bytes text.new ≡ string_bytes text.old ++ demo_line
        number) }
{
    if number <= 3 {
        push_join(text, number)
    } else if number % 4 == 0 {
        push_list(text, number)
    } else {
        push_add(text, number)
    }
}

fn push_join(text: &mut String, number: u64) -> Result<(), Memory>
    ensures { IfOk result (λ done. string_bytes text.new ≡ string_bytes text.old ++ join_line
        number) }
{
    write!(text, "ask - POST \"/join\" \"name=u{number}\"\n")?;
    Ok(())
}

fn push_add(text: &mut String, number: u64) -> Result<(), Memory>
    ensures { IfOk result (λ done. string_bytes text.new ≡ string_bytes text.old ++ add_line
        number) }
{
    let viewer = viewer_number(number);
    let open = open_digit(number);
    write!(
        text,
        "ask {viewer} POST \"/add\" \"title=t{number}&open={open}\"\n"
    )?;
    Ok(())
}

fn push_list(text: &mut String, number: u64) -> Result<(), Memory>
    ensures { IfOk result (λ done. string_bytes text.new ≡ string_bytes text.old ++ list_line
        number) }
{
    let viewer = viewer_number(number);
    write!(text, "ask {viewer} GET \"/list\" \"\"\n")?;
    Ok(())
}

// The ids of the first three users are 4,096, 8,192 and 12,288.
fn viewer_number(number: u64) -> u64
    ensures { result ≡ viewer_number number }
{
    4096 * (number % 3 + 1)
}

fn open_digit(number: u64) -> u8
    ensures { result ≡ open_digit number }
{
    if number % 5 == 0 { 1 } else { 0 }
}
