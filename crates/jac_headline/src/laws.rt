ghost use Rattle.std.specs.Prelude.{◌≡◌, ℕ, List, Bool, Option, Some};
ghost use Rattle.jac_lang.specs.Syntax.{Application};
ghost use Rattle.jac_rows.specs.Good.{IsSound};
ghost use Rattle.jac_rows.specs.declared.state.State.{State};
ghost use Rattle.jac_serve_events.specs.AnswerSpec.{LogEntry};
ghost use Rattle.jac_serve_events.specs.Outside.{span};
ghost use Rattle.jac_cli.specs.Words.{command_of};
ghost use Rattle.jac_cli.specs.declared.words.Command.TheVariants as commands;
ghost use Rattle.jac_cli.specs.declared.words.Replay.{Replay};
ghost use Rattle.jac_write.specs.Writes.{PlainTables, Writes, numbered_tables};
ghost use Rattle.jac_cli.specs.declared.words.ServeArgs.{ServeArgs};
ghost use Rattle.jac_run_laws.specs.Doors.{HasServed};
ghost use Rattle.jac_run_laws.specs.Replayed.{TopRun, IsTopRun, IsToldToEnd as HasEnded};
ghost use Rattle.jac_headline.specs.Headline.{Given, HoldGiven, IsReplayTold, IsFaithful, HasReplayedFaithfully, HasServedFaithfully};
ghost use Rattle.jac_headline.specs.Replies.{AreRightReplies};
ghost use Rattle.jac_headline.specs.Companions.{ShowsNothingForbidden, HideAlike, LeavesOthers};

/// The promise covers a replay that meets two conditions. It ended with status 0, or with status 3
/// because a line of its events was refused. Its files and its store could be read until it ended.
/// Then the application's file is the text of an application. There is a log with an entry for
/// each request of the events, and this holds:
///
/// 1. **Stored rows.** Take any assignment, and the tables that it shows when the store is
///    attached. Let the ordinary interpreter answer the requests of the log on these tables. When
///    the run ends, the assignment shows the resulting tables (`stored`).
/// 2. **Pages.** Take the tables that the labels of a page's audit line show before its request.
///    From these tables the ordinary interpreter makes the same page (`made`).
/// 3. **Nothing forbidden.** Each of these labels meets its policy for the viewer (`allowed`).
/// 4. **Nothing withheld.** No single further label could be shown (`settled`). With `--lazy` this
///    isn't claimed.
///
/// The output has the replies of this log. If a line of the events was refused, a message follows
/// them. The audit has a line for each reply.
pub fn headline<L>()
    ensures { (words : List (List ℕ)) (replay : Replay) (given : Given) (top : TopRun L) →
        IsTopRun words top → command_of words ≡ Some (commands.Replay replay) →
        HoldGiven top.seen.files.before.file replay given → IsReplayTold top →
        HasReplayedFaithfully replay given top }
{}

/// The same promise for a serve that ended with status 0. One log has the replies of all
/// connections, in the order in which they were served.
pub fn headline_of_serves<L>()
    ensures { (words : List (List ℕ)) (serving : ServeArgs) (top : TopRun L) →
        IsTopRun words top → command_of words ≡ Some (commands.Serve serving) → HasEnded top →
        HasServedFaithfully serving top }
{}

/// Each reply of a serve is one of four:
///
/// - the right page under the labels that its audit line names, as in `headline`;
/// - a refusal with its cause: no view has the path (404) or the method (405), the numbers of
///   records are used up (507), or the bytes are no request (400, 413, 415, 431 or 501);
/// - a reply with status 500 and no page, because memory ran out;
/// - a reply with status 503 and no page. Then the store's count of faults rose while connections
///   were served.
///
/// The log is that of `serve_answers` in `jac_run_laws`. The serve ended with status 0, and its
/// files and store could be read until it ended. So if no count of faults rose, there is no 503.
pub fn each_reply_is_right<L>()
    ensures { (serving : ServeArgs) (top : TopRun L) (run : HasServed serving top) →
        HasEnded top →
        AreRightReplies serving.lazy run.app (span run.door_served.opened top.seen.keeper.after)
        run.log }
{}

/// No page shows what a policy forbids. Each label of a page's audit line belongs to a record that
/// exists. In the world that these labels show, its policy is true for the viewer.
pub fn nothing_forbidden_is_shown()
    ensures { (lazy : Bool) (app : Application) (start finish : State) (log : List LogEntry) →
        IsFaithful lazy app start finish log → ShowsNothingForbidden app start log }
{}

/// What is hidden changes no byte (noninterference). Replay the same events over two stores. Take
/// two replies at the same place whose pages have the same labels. If these labels show the same
/// of both stores at the start, the replies have the same bytes, whatever else the stores hide.
pub fn hidden_changes_no_byte<L, M>()
    ensures { (words others : List (List ℕ)) (replay again : Replay) (given : Given) →
        (one : TopRun L) (two : TopRun M) → IsTopRun words one → IsTopRun others two →
        command_of words ≡ Some (commands.Replay replay) →
        command_of others ≡ Some (commands.Replay again) →
        HoldGiven one.seen.files.before.file replay given →
        HoldGiven two.seen.files.before.file again given →
        IsReplayTold one → IsReplayTold two → HideAlike replay again given one two }
{}

/// If a write has a path condition, it changes no world in which the condition is false.
pub fn update_leaves_others()
    ensures { (step : (ℕ → Bool) → PlainTables → PlainTables) (pc : List (ℕ × Bool)) →
        (old new : State) (n : ℕ) → Writes step pc old new → IsSound (numbered_tables n old) →
        LeavesOthers pc old new }
{}
