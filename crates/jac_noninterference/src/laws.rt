ghost use Rattle.std.specs.Prelude.{◌≡◌, ℕ, Bool, IsTrue, true, false, List, map};
ghost use Rattle.jac_lang.specs.Syntax.{Application};
ghost use Rattle.jac_rows.specs.Project.{project_at};
ghost use Rattle.jac_open_app_laws.specs.Open.{is_open_app};
ghost use Rattle.jac_route.specs.declared.sessions.Session.{Session};
ghost use Rattle.jac_events.specs.declared.event.Event.{Event};
ghost use Rattle.jac_hub.specs.Hearing.{Source};
ghost use Rattle.jac_serve_events.specs.AnswerSpec.{LogSubject, LogEntry};
ghost use Rattle.jac_serve_events.specs.RunSeen.{RunSeen};
ghost use Rattle.jac_serve_events.specs.Outside.{Span};
ghost use Rattle.jac_serve_events.specs.Serve.{IsServed as IsServedBy};
ghost use Rattle.jac_dispatch.specs.Answered.{answer_spec_of};
ghost use Rattle.jac_dispatch.specs.Log.{Serves};
ghost use Rattle.jac_noninterference.specs.OpenRuns.{AreShownSame, OnlyReads, StartAlike};
ghost use Rattle.jac_noninterference.specs.TwoRuns.{OneRun, IsRunServed, LookSame, NoneFailed, AgreeAfterEach, EndAlike, AreSameWhereShown, AreSeenAlike, seen_by, seen_entry};

/// A law: the contract of the top call implies the premise of the laws below, if the contents of
/// the application's store are known at the end.
pub fn told_runs_serve()
    ensures { (lazy early : Bool) (app : Application) (sessions : List Session) (k : Span RunSeen) →
        (events : List Event) (log : List LogEntry) →
        IsServedBy early (answer_spec_of lazy app sessions) k events log →
        IsTrue k.after.keeper.tells →
        Serves lazy early app sessions k.before.keeper.state events log k.after.keeper.state }
{}

/// A law: if an assignment shows the same of two starts, two runs of the same events from these
/// starts get the same requests, entry by entry. Both answer with a page or neither does. After
/// each entry the assignment shows the same of both states. So what it hides at the start never
/// changes what it shows later.
///
/// This holds until an entry of either run has failed because it was out of memory or because of a
/// fault of the keeper: hidden data may be the reason why memory ran out. If a run may stop early,
/// it may stop at an entry of its own. Nothing is said of time, or of how much memory is used. In
/// each run the page of a GET may resolve all labels, or only the labels that it consults.
///
/// It is the projection theorem of faceted evaluation, for whole runs: Austin and Flanagan, POPL
/// 2012; Yang and others, PLDI 2016.
pub fn worlds_agree()
    ensures { (w : ℕ → Bool) (app : Application) (sessions : List Session) (events : List Event) →
        (one two : OneRun) → IsRunServed app sessions events one
        → IsRunServed app sessions events two →
        LookSame w one.start two.start →
        AgreeAfterEach w app one.early two.early one.log two.log
        (project_at w one.start) (project_at w two.start) }
{}

/// A law: if no entry of two such runs failed, they get the same requests as far as both go. If
/// neither may stop early, that is to the end. If they have equally many entries, the assignment
/// shows the same of the states that they leave.
///
/// A run that stops early leaves what its own entries leave. So nothing is said here of the final
/// states of two runs that stopped at different entries.
pub fn ends_agree()
    ensures { (w : ℕ → Bool) (app : Application) (sessions : List Session) (events : List Event) →
        (one two : OneRun) → IsRunServed app sessions events one
        → IsRunServed app sessions events two →
        LookSame w one.start two.start →
        NoneFailed one.log → NoneFailed two.log → EndAlike w one two }
{}

/// A law: in two runs of the same events, replies to the same request are the same if they have no
/// page. They are also the same if their pages were made under the same labels and these labels
/// show the same of both starts. So what labels hide changes no byte of a page that is made under
/// them. This also holds if one run or both resolved only the labels that a GET's page consults.
/// Which labels were consulted may differ, but only the audit contains them.
///
/// As above, this holds until an entry of either run has failed. It isn't promised that both runs
/// make a page under the same labels. The audit contains these labels. A policy may read hidden
/// data, so which labels are shown may depend on it, and with them the page.
///
/// For faceted values this is called noninterference: Austin and Flanagan, POPL 2012; Yang and
/// others, PLDI 2016.
pub fn pages_agree()
    ensures { (app : Application) (sessions : List Session) (events : List Event) →
        (one two : OneRun) → IsRunServed app sessions events one
        → IsRunServed app sessions events two →
        AreSameWhereShown one.start two.start one.log two.log }
{}

/// A law: an observer sees some of the entries of two whole runs in which nothing failed, for
/// example the entries of one connection or of one viewer. If the labels of the pages that she sees
/// are the same in both runs and show the same of both starts, she sees the same in both, whatever
/// else is hidden and whatever others are shown. It is a premise that the labels are the same, for
/// the reason above. The events are the same too, so no request depends on what was shown before.
/// Whoever receives a page doesn't see which labels were consulted for it.
pub fn views_agree()
    ensures { (sees : Source → LogSubject → Bool) (app : Application) (sessions : List Session) →
        (events : List Event) (one two : OneRun) → IsRunServed app sessions events one →
        IsRunServed app sessions events two → AreSeenAlike sees one two →
        seen_by sees one.log ≡ seen_by sees two.log }
{}

/// A law: in a run in which each page resolved all labels, the seen part of an answer is the whole
/// answer, because no answer has consulted labels. So for two such runs the laws above say that the
/// answers themselves are equal.
pub fn all_is_seen()
    ensures { (app : Application) (sessions : List Session) (events : List Event) (run : OneRun) →
        IsRunServed app sessions events run → run.lazy ≡ false → map seen_entry run.log ≡ run.log }
{}

/// A law: assume an open application, and two runs of the same events in which each page resolves
/// all labels. Whatever is shown, both starts have the same records with the same unguarded fields.
/// No reply is a page that a `POST` made, and no entry failed because it was out of memory or
/// because of a fault of the keeper. Then both runs make each page under the same labels. A reply
/// is the same in both, byte by byte, if its labels show the same of both starts. So only a page
/// that shows hidden data depends on it, and which pages show it doesn't depend on it either.
///
/// A `POST` may store a record because of hidden data, and a policy may let its label be shown:
/// then the runs may show different labels. Also, which labels a page consults may depend on hidden
/// data. So if a page resolves only these, the labels that it is made under may depend on hidden
/// data too.
pub fn labels_agree()
    ensures { (app : Application) (sessions : List Session) (events : List Event) →
        (one two : OneRun) → IsRunServed app sessions events one
        → IsRunServed app sessions events two →
        one.lazy ≡ false → two.lazy ≡ false → is_open_app app ≡ true → StartAlike app one two →
        NoneFailed one.log → NoneFailed two.log → OnlyReads app one.log → OnlyReads app two.log →
        AreShownSame one.early two.early one.start two.start one.log two.log }
{}
