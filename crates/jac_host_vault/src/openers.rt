//! What makes the openers of a store's file, and counts them.
ghost use Rattle.std.specs.Prelude.{◌≡◌, ℕ};
ghost use Rattle.jac_io.specs.Faults.{one_more_fault};

use crate::told::FaultLog;
use crate::{FileContent, FileOpens};
use jac_sqlkeep::{FileOpener, HostOpener};
use jac_value::Txt;
use std::marker::PhantomData;

/// What makes the first opener of a store's file. This uses it up, so a value of this type has made
/// none. A function with such a type parameter can't make an `Opens` in another way.
pub trait MakesOpeners: Drop {
    type Opens: FileOpens;

    /// What makes others, after a fault closed the file.
    type Others: Drop;

    /// How many openers were made, the first among them.
    ghost made: { Self.Others → ℕ };

    /// The first opener. It makes the file if it doesn't exist, or fails then.
    fn first(self, makes: bool) -> (Self::Opens, Self::Others)
        ensures faults { Self.Opens.Opener.faults result.0 ≡ 0 }
        ensures gave { Self.Opens.Opener.gave result.0 ≡ 0 }
        ensures made { made result.1 ≡ 1 };

    /// One more opener. It opens only a file that exists.
    fn another(others: &mut Self::Others) -> Self::Opens
        ensures made { made others.new ≡ one_more_fault (made others.old) };

    /// Reports a fault of the store of this name on standard error, at most one per second.
    fn tell(others: &mut Self::Others, name: &Txt, what: &str)
        ensures made { made others.new ≡ made others.old };
}

/// Makes openers of a file that is supposed to have the content `C`.
#[derive(Drop)]
pub struct FileOpeners<C: FileContent> {
    rt: HostRuntime,
    content: PhantomData<C>,
}

impl<C: FileContent> FileOpeners<C> {
    pub fn new(rt: HostRuntime) -> FileOpeners<C> {
        FileOpeners {
            rt,
            content: PhantomData,
        }
    }
}

impl<C: FileContent> MakesOpeners for FileOpeners<C> {
    type Opens = FileOpener<C>;

    type Others = OtherOpeners;

    ghost made = { λ o. o.made };

    fn first(self, makes: bool) -> (FileOpener<C>, OtherOpeners) {
        let FileOpeners { rt, content: _ } = self;
        (
            FileOpener::new(rt, makes, C::new()),
            OtherOpeners::after_first(rt),
        )
    }

    fn another(others: &mut OtherOpeners) -> FileOpener<C> {
        others.made = others.made.saturating_add(1);
        FileOpener::new(others.rt, false, C::new())
    }

    fn tell(others: &mut OtherOpeners, name: &Txt, what: &str) {
        others.log.tell(name.as_str(), what);
    }
}

/// For `main` to name: makes openers of a file of which nothing is supposed.
#[derive(Drop)]
pub struct HostOpeners {
    rt: HostRuntime,
}

impl HostOpeners {
    pub fn new(rt: HostRuntime) -> HostOpeners {
        HostOpeners { rt }
    }
}

impl MakesOpeners for HostOpeners {
    type Opens = HostOpener;

    type Others = OtherOpeners;

    ghost made = { λ o. o.made };

    fn first(self, makes: bool) -> (HostOpener, OtherOpeners) {
        let HostOpeners { rt } = self;
        (HostOpener::new(rt, makes), OtherOpeners::after_first(rt))
    }

    fn another(others: &mut OtherOpeners) -> HostOpener {
        others.made = others.made.saturating_add(1);
        HostOpener::new(others.rt, false)
    }

    fn tell(others: &mut OtherOpeners, name: &Txt, what: &str) {
        others.log.tell(name.as_str(), what);
    }
}

/// Makes openers after the first. `made` counts all of them.
#[derive(Drop)]
pub struct OtherOpeners {
    rt: HostRuntime,
    made: u64,
    log: FaultLog,
}

impl OtherOpeners {
    fn after_first(rt: HostRuntime) -> OtherOpeners
        ensures { result.made ≡ 1 }
    {
        OtherOpeners {
            rt,
            made: 1,
            log: FaultLog::new(rt),
        }
    }
}
