//! The texts of labels, kept from one audit line of a viewer to the next.
ghost use Rattle.std.specs.Prelude.{◌≡◌, ◌++◌, [], IfOk, OnOk};
ghost use Rattle.std.specs.String.{string_bytes};
ghost use Rattle.jac_replies.specs.Spelled.{audit_rest, labels_text, more_labels, shown_text};

use crate::label_text::LabelText;
use crate::reply::{LINE_ROOM, put_consulted, put_head, put_more, put_number};
use jac_value::{Id, Memory, Txt};
use jac_world::{Assignment, Label};
use std::alloc::Global;

// The number of viewers for whom a text is kept.
const VIEWERS: usize = 64;

// The number of labels that all texts together may have. A text has about ten bytes for each label.
const LABELS: usize = 1 << 18;

// Fewer labels than these are written faster than they are compared.
const FEW: usize = 16;

/// For each of at most 64 viewers, the text of the labels in their last audit line. Writing numbers
/// takes most of the time of a line, so labels that a line has in common with that viewer's last
/// one aren't written anew.
#[derive(Drop)]
pub struct LabelTexts {
    texts: Vec<ViewerText>,
}

#[derive(Drop)]
struct ViewerText {
    viewer: Option<Id>,
    text: LabelText,
}

impl LabelTexts {
    pub fn none(alloc: Global) -> LabelTexts {
        LabelTexts {
            texts: Vec::new(alloc),
        }
    }

    /// The same as the function `audit_rest`.
    pub fn audit_rest(
        &mut self,
        alloc: Global,
        status: u16,
        viewer: &Option<Id>,
        shown: &Option<Assignment>,
        consulted: &Option<Assignment>,
    ) -> Result<Txt, Memory>
        ensures { IfOk result (λ line. line ≡ audit_rest status viewer.now shown.now
            consulted.now) }
    {
        let mut line = String::with_capacity(alloc, LINE_ROOM)?;
        put_head(status, *viewer, &mut line)?;
        self.put_shown(alloc, viewer, shown, &mut line)?;
        put_consulted(consulted, &mut line)?;
        line.push_str("\n")?;
        Ok(Txt::from_string(line))
    }

    fn put_shown(
        &mut self,
        alloc: Global,
        viewer: &Option<Id>,
        shown: &Option<Assignment>,
        to: &mut String,
    ) -> Result<(), Memory>
        ensures { OnOk result (string_bytes to.new ≡ string_bytes to.old
            ++ shown_text shown.now) }
    {
        match shown {
            None => to.push_str("nopage")?,
            Some(labels) => self.put_labels(alloc, viewer, labels, to)?,
        }
        Ok(())
    }

    fn put_labels(
        &mut self,
        alloc: Global,
        viewer: &Option<Id>,
        labels: &Assignment,
        to: &mut String,
    ) -> Result<(), Memory>
        ensures { OnOk result (string_bytes to.new ≡ string_bytes to.old
            ++ labels_text labels.now) }
    {
        match labels.as_slice().split_first() {
            None => to.push_str("-")?,
            Some((first, rest)) => {
                put_number(first.0, to)?;
                self.put_rest(alloc, viewer, rest, to)?;
            }
        }
        Ok(())
    }

    // Adds each label after a comma.
    fn put_rest(
        &mut self,
        alloc: Global,
        viewer: &Option<Id>,
        labels: &[Label],
        to: &mut String,
    ) -> Result<(), Memory>
        ensures { OnOk result (string_bytes to.new ≡ string_bytes to.old
            ++ more_labels labels.now) }
    {
        if labels.len() < FEW {
            return put_more(labels, to);
        }
        make_room(&mut self.texts, labels.len());
        let mut text = take_text(&mut self.texts, alloc, viewer);
        let put = text.put(labels, to);
        keep_text(&mut self.texts, viewer_text(viewer, text));
        put
    }
}

// Drops all texts if they would have too many labels together with another text of this many.
fn make_room(texts: &mut Vec<ViewerText>, wanted: usize) {
    if labels_of(texts.as_slice()).saturating_add(wanted) > LABELS {
        texts.clear();
    }
}

fn labels_of(texts: &[ViewerText]) -> usize {
    let mut labels: usize = 0;
    'texts: for kept in texts {
        labels = labels.saturating_add(kept.text.len());
    }
    labels
}

// Takes out the viewer's text, or begins with an empty one.
fn take_text(texts: &mut Vec<ViewerText>, alloc: Global, viewer: &Option<Id>) -> LabelText {
    let place = texts
        .as_slice()
        .iter()
        .position(|kept| is_same_viewer(&kept.viewer, viewer));
    match place {
        Some(place) => {
            let ViewerText { viewer: _, text } = texts.remove(place);
            text
        }
        None => LabelText::none(alloc),
    }
}

fn is_same_viewer(one: &Option<Id>, other: &Option<Id>) -> bool {
    match (one, other) {
        (Some(one), Some(other)) => one == other,
        (None, None) => true,
        _ => false,
    }
}

fn viewer_text(viewer: &Option<Id>, text: LabelText) -> ViewerText {
    ViewerText {
        viewer: *viewer,
        text,
    }
}

// Keeps a text as the last one. Beyond 64 texts, the least recently used one is dropped. If this is
// out of memory, the text itself is dropped.
fn keep_text(texts: &mut Vec<ViewerText>, text: ViewerText) {
    if texts.len() >= VIEWERS {
        texts.remove(0);
    }
    match texts.push(text) {
        Ok(()) => (),
        Err(_) => (),
    }
}
