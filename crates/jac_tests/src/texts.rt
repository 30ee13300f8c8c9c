//! Tests that write an application out again, print texts, find the faults of a tag, and make the
//! schema that a store keeps.
use jac_check::check;
use jac_forms::{FormFault, Want, app_of};
use jac_lang::App;
use jac_template::{TemplateFault, escape, expand};
use jac_tree::{Tree, nests_within, print_tree, read_tree};
use jac_unparse::tree_of;
use jac_value::{Bytes, Txt};
use std::alloc::Global;
use std::test::Fail;

pub(crate) const CALENDAR: &str = "(app (viewer User) (model User (fields (name text))) \
    (model Event (fields (title text) (host (ref User)) (open bool)) \
    (group (guards (title \"private\")) \
    (policy (or (get Event open this) (eq (get Event host this) viewer))))) \
    (view post \"/join\" (params (name text)) (create u User (set (name name)) (put u))) \
    (view get \"/list\" (params) \
    (for (from ((e Event)) true key) (put (get Event title e)) (put \";\"))))";

const SCHEMA: &str = "(schema (model User (fields (name text)) (groups)) \
    (model Event (fields (title text) (host (ref User)) (open bool)) (groups (title))))";

pub(crate) fn app(alloc: Global, text: &str) -> Option<App> {
    let tree = read_tree(alloc, text.as_bytes()).ok()?;
    app_of(alloc, &tree).ok()
}

// The application's text, as it is written out.
fn written(alloc: Global, app: &App) -> Option<Bytes> {
    let tree = tree_of(alloc, app).ok()?;
    if !nests_within(&tree, 64) {
        return None;
    }
    print_tree(alloc, &tree).ok()
}

// The text of the application's schema.
fn schema(alloc: Global, app: App) -> Option<Txt> {
    let checked = check(alloc, app).ok()?;
    checked.schema(alloc).ok()
}

#[test]
fn an_application_is_written_again(rt: HostRuntime) {
    let alloc = rt.alloc();
    let text = app(alloc, CALENDAR).and_then(|app| written(alloc, &app));
    assert!(rt; text.is_some_and(|text| text.as_slice() == CALENDAR.as_bytes()));
}

#[test]
fn an_application_has_a_schema(rt: HostRuntime) {
    let alloc = rt.alloc();
    let text = app(alloc, CALENDAR).and_then(|app| schema(alloc, app));
    assert!(rt; text.is_some_and(|text| text.as_str() == SCHEMA));
}

#[test]
fn texts_are_printed(rt: HostRuntime) -> Result<(), Fail> {
    let escaped = Tree::Text(Txt::from_str(rt.alloc(), "\t\"\\\n\r\u{1}é()")?);
    let printed = print_tree(rt.alloc(), &escaped)?;
    assert!(rt; printed.as_slice() == "\"\\t\\\"\\\\\\n\\r\u{1}é()\"".as_bytes());
    Ok(())
}

#[test]
fn markup_is_escaped(rt: HostRuntime) -> Result<(), Fail> {
    let text = escape(rt.alloc(), b"a<b>&\"'")?;
    assert!(rt; text.as_slice() == b"a&lt;b&gt;&amp;&quot;&#39;".as_slice());
    Ok(())
}

// Whether the text is refused because the tag at 0 itself is no expression.
fn is_no_expression(alloc: Global, text: &Txt) -> bool {
    match expand(alloc, text) {
        Err(TemplateFault::Form(0, FormFault::Form { path, want })) => {
            path.as_slice().is_empty() && want == Want::Expression
        }
        _ => false,
    }
}

#[test]
fn a_tag_has_the_fault_of_its_form(rt: HostRuntime) -> Result<(), Fail> {
    let text = Txt::from_str(rt.alloc(), "{{ (add 1) }}")?;
    assert!(rt; is_no_expression(rt.alloc(), &text));
    Ok(())
}
