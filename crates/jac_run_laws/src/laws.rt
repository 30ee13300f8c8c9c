ghost use Rattle.std.specs.Prelude.{◌≡◌, ℕ, Bool, List, Option, Some};
ghost use Rattle.jac_world.specs.World.{shown_by};
ghost use Rattle.jac_lang.specs.Syntax.{Application};
ghost use Rattle.jac_events.specs.declared.event.Event.{Event};
ghost use Rattle.jac_route.specs.declared.sessions.Session.{Session};
ghost use Rattle.jac_serve_events.specs.AnswerSpec.{LogEntry};
ghost use Rattle.jac_serve_events.specs.Log.{audit_lines};
ghost use Rattle.jac_cli.specs.Words.{command_of};
ghost use Rattle.jac_cli.specs.declared.words.Command.TheVariants as commands;
ghost use Rattle.jac_cli.specs.declared.words.Replay.{Replay};
ghost use Rattle.jac_cli.specs.declared.words.ServeArgs.{ServeArgs};
ghost use Rattle.jac_noninterference.specs.TwoRuns.{OneRun, IsRunServed, LookSame, NoneFailed};
ghost use Rattle.jac_run_laws.specs.Audited.{HaveSmallNumbers, HaveSmallSources, AreAuditedAlike, AreToldAlike};
ghost use Rattle.jac_run_laws.specs.Doors.{HasServed, AreTakenAlike, AreLikeWhereShown, HoldSameMore};
ghost use Rattle.jac_run_laws.specs.Replayed.{TopRun, IsTopRun, IsToldToEnd, IsReplayed, HasReplayed, HaveReplayed, TellsNoFailure, TellsPage, HaveSmallLabels, AreFewFrom, counts_of};

/// A law: assume that a replay ended with status 0, and that the contents of its files and its
/// store are known at the end. Then its files contain an application, sessions and events. The
/// replay answered these events from the state of its store after attaching it. With `--lazy` a
/// GET's page resolved only the labels that it consults. The output and the audit are the text and
/// the audit lines of this log.
pub fn replay_answers<L>()
    ensures { (words : List (List ℕ)) (replay : Replay) (top : TopRun L) →
        IsTopRun words top → command_of words ≡ Some (commands.Replay replay) → IsToldToEnd top →
        HasReplayed replay top }
{}

/// A law: two such replays of the same words, over files with the same contents, read the same
/// application, sessions and events. So the laws of two runs hold for their logs.
pub fn replays_answer<L, M>()
    ensures { (words : List (List ℕ)) (replay : Replay) (one : TopRun L) (two : TopRun M) →
        IsTopRun words one → IsTopRun words two →
        command_of words ≡ Some (commands.Replay replay) → IsToldToEnd one → IsToldToEnd two →
        ((name : List ℕ) → one.seen.files.before.file name ≡ two.seen.files.before.file name) →
        HaveReplayed replay one two }
{}

/// A law: if no line of an audit has the status 500 or 503, no entry of its log failed.
pub fn audits_tell_failures()
    ensures { (log : List LogEntry) → TellsNoFailure (audit_lines log) → NoneFailed log }
{}

/// A law: assume that two replays of the same events have written the same audit, that no line of
/// it has the status 500 or 503, and that the labels of each line show the same of both starts.
/// Then they have written the same bytes, reply by reply, whatever else their stores hide.
///
/// So somebody who may read all that a program writes to its output learns nothing of what her
/// labels don't show, except what is in the audit. With `--lazy` the audit also has the labels that
/// were consulted. All labels that the program writes have at most 128 bits, as the law assumes.
pub fn bytes_agree<L, M>()
    ensures { (replay : Replay) (one : TopRun L) (two : TopRun M) (app : Application) →
        (sessions : List Session) (events : List Event) (first second : OneRun) →
        (out other audit : List ℕ) → IsReplayed replay one app sessions events first out audit →
        IsReplayed replay two app sessions events second other audit → TellsNoFailure audit →
        ((labels : List ℕ) → TellsPage audit labels →
        LookSame (shown_by labels) first.start second.start) →
        HaveSmallLabels first.log → HaveSmallLabels second.log → out ≡ other }
{}

/// A law: assume that a serve ended with status 0, and that the contents of its files and its store
/// are known at the end. Then its files contain an application and sessions. The serve answered the
/// connections one after another, from the state of its store after attaching it. With `--lazy` a
/// GET's page resolved only the labels that it consults.
pub fn serve_answers<L>()
    ensures { (words : List (List ℕ)) (serving : ServeArgs) (top : TopRun L) →
        IsTopRun words top → command_of words ≡ Some (commands.Serve serving) → IsToldToEnd top →
        HasServed serving top }
{}

/// A law: in such a serve of a local application from a local state, the first answer to each
/// viewer that isn't a failure took at most 256 evaluations of policies for each live label of the
/// state that it left, whichever connection it went to. Nothing is said with `--lazy`.
pub fn first_answers_are_few<L>()
    ensures { (serving : ServeArgs) (top : TopRun L) (run : HasServed serving top) →
        AreFewFrom serving.lazy run.app top.seen.keeper.after (counts_of top)
        run.door_served.opened run.log }
{}

/// A law: assume that two such serves, over files with the same contents, got connections with the
/// same input, in whatever pieces it came, and took all of it. Assume also that no entry failed.
/// Then both got the same requests, connection by connection. Replies without a page are the same.
/// Pages that were made under the same labels are the same if these labels show the same of both
/// starts.
pub fn serves_agree<L, M>()
    ensures { (serving : ServeArgs) (one : TopRun L) (two : TopRun M) →
        (first : HasServed serving one) (second : HasServed serving two) →
        IsToldToEnd one → IsToldToEnd two →
        ((name : List ℕ) → one.seen.files.before.file name ≡ two.seen.files.before.file name) →
        AreTakenAlike one.line two.line first.visits second.visits →
        NoneFailed first.log → NoneFailed second.log →
        AreLikeWhereShown first.start second.start first.log second.log }
{}

/// A law: if an assignment shows the same of the stores of two such serves after they were
/// attached, it shows the same of what they leave. So what it hides at the start never changes what
/// it shows at the end, in whatever pieces the input came.
///
/// For the program that people run, the premises mean this. No disk fault closed its store. Each
/// connection sent something. The input of a connection is what was read from it, so all of it was
/// taken. No read or write on a connection failed: a browser that goes away early makes the premise
/// false.
pub fn serve_ends_agree<L, M>()
    ensures { (serving : ServeArgs) (one : TopRun L) (two : TopRun M) →
        (first : HasServed serving one) (second : HasServed serving two) →
        IsToldToEnd one → IsToldToEnd two →
        ((name : List ℕ) → one.seen.files.before.file name ≡ two.seen.files.before.file name) →
        AreTakenAlike one.line two.line first.visits second.visits →
        NoneFailed first.log → NoneFailed second.log →
        (w : ℕ → Bool) → LookSame w first.start second.start →
        LookSame w one.seen.keeper.after.state two.seen.keeper.after.state }
{}

/// A law: assume that two such serves have written the same audit, that no line of it has the
/// status 500 or 503, and that the labels of each line show the same of both starts. Then each
/// connection received the same bytes in both, whatever else their stores hide.
///
/// So somebody who reads all that was sent on all connections learns nothing of what the labels
/// don't show, except what is in the audit. The premises mean the same as in the law before. All
/// labels that the program writes have at most 128 bits, as the law assumes.
pub fn serve_bytes_agree<L, M>()
    ensures { (serving : ServeArgs) (one : TopRun L) (two : TopRun M) →
        (first : HasServed serving one) (second : HasServed serving two) →
        IsToldToEnd one → IsToldToEnd two →
        ((name : List ℕ) → one.seen.files.before.file name ≡ two.seen.files.before.file name) →
        AreTakenAlike one.line two.line first.visits second.visits →
        first.audit ≡ second.audit → TellsNoFailure first.audit →
        ((labels : List ℕ) → TellsPage first.audit labels →
        LookSame (shown_by labels) first.start second.start) →
        HaveSmallLabels first.log → HaveSmallLabels second.log →
        HoldSameMore one.line two.line first.visits second.visits }
{}

/// A law: the bytes of an audit determine how many entries its log has, and the status, the viewer
/// and the page's labels of each entry. With `--lazy` they also determine the labels that were
/// consulted. All numbers that the program writes have at most 128 bits, as the law assumes.
pub fn audits_fix_entries()
    ensures { (log others : List LogEntry) → HaveSmallNumbers log → HaveSmallNumbers others →
        audit_lines log ≡ audit_lines others → AreAuditedAlike log others }
{}

/// A law: the text of a replay and its audit together also determine the source of each entry: an
/// `ask` line, or the number of a connection. The two replays may differ in their words, files and
/// stores, and entries may have failed.
pub fn texts_fix_entries<L, M>()
    ensures { (replay again : Replay) (one : TopRun L) (two : TopRun M) →
        (app other : Application) (sessions others : List Session) (events more : List Event) →
        (first second : OneRun) (out audit : List ℕ) →
        IsReplayed replay one app sessions events first out audit →
        IsReplayed again two other others more second out audit →
        HaveSmallNumbers first.log → HaveSmallNumbers second.log →
        HaveSmallSources first.log → HaveSmallSources second.log →
        AreToldAlike first.log second.log }
{}

/// A law: for two runs of the same events the audit alone determines all of this, if no line of it
/// has the status 500 or 503. If a line has, it doesn't: memory may run out in the middle of a
/// request, and no line of the audit says which connection the request came from.
pub fn audits_fix_sources()
    ensures { (app : Application) (sessions : List Session) (events : List Event) →
        (one two : OneRun) → IsRunServed app sessions events one
        → IsRunServed app sessions events two →
        audit_lines one.log ≡ audit_lines two.log → TellsNoFailure (audit_lines one.log) →
        HaveSmallNumbers one.log → HaveSmallNumbers two.log →
        AreToldAlike one.log two.log }
{}
