//! Serves one link, as `run` serves each link of a door.
ghost use Rattle.std.specs.Prelude.{◌≡◌, ◌<◌, ◌^◌, Err, IsTrue};
ghost use Rattle.jac_io.specs.Faults.{Rose};
ghost use Rattle.jac_lang.specs.Mirror.{application_of};
ghost use Rattle.jac_engine.specs.Start.{IsStart};
ghost use Rattle.jac_connections.specs.Link.{as_sink};
ghost use Rattle.jac_app.specs.Server.{IsLinkServedLeaving};
ghost use Rattle.jac_serve_events.specs.RunSeen.{run_counts, run_seen_of};
ghost use Rattle.jac_serve_events.specs.Outside.{Went, sinks, span};
ghost use Rattle.jac_dispatch.specs.Answered.{answer_spec_of};

use jac_app_load::Service;
use jac_connections::Halt;
use jac_dispatch::AppDispatcher;
use jac_io::{AuditSink, Link};
use jac_keep::Keeper;
use jac_replies::{LabelTexts, Spelling};
use jac_route::Sessions;
use jac_viewer_caches::ViewerCaches;
use jac_world::Steps;
use std::alloc::Global;
use std::sync::ledger::Ledger;

/// Serves the connection with this number, after `first` replies, over an attached keeper. Returns
/// the count of its own replies. A fault of the link ends only this connection. `run` does the same
/// for each link of a door.
pub fn serve_link<N: Link, U: AuditSink, K: Keeper, L: Ledger, M: Ledger>(
    alloc: Global,
    service: &Service,
    sessions: &Sessions,
    conn: u32,
    first: u64,
    lazy: bool,
    link: &mut N,
    audit: &mut U,
    keeper: &mut K,
    splits: &mut Steps<L>,
    evaluations: &mut Steps<M>,
) -> Result<u64, Halt>
    requires few { first < 2 ^ 63 }
    requires attached { IsTrue (K.seen keeper.old).store.attached }
    requires start { IsTrue (K.seen keeper.old).tells → IsStart (application_of service.now)
        (K.seen keeper.old).state }
    ensures served { Went (sinks (as_sink (N.seen link.old)) (as_sink (N.seen link.new))
        (U.seen audit.old) (U.seen audit.new))
        (IsLinkServedLeaving (answer_spec_of lazy (application_of service.now) sessions.now) conn
        first (span (N.seen link.old) (N.seen link.new))
        (span (run_seen_of (K.seen keeper.old) (run_counts splits.old evaluations.old))
        (run_seen_of (K.seen keeper.new) (run_counts splits.new evaluations.new))) result) }
    ensures cause { result ≡ Err Halt.Write
        → Rose (U.seen audit.old).faults (U.seen audit.new).faults }
    ensures start { IsTrue (K.seen keeper.new).tells → IsStart (application_of service.now)
        (K.seen keeper.new).state }
    ensures attached { (K.seen keeper.new).store ≡ (K.seen keeper.old).store }
{
    let mut viewer_caches = ViewerCaches::none(alloc);
    let mut label_texts = LabelTexts::none(alloc);
    let mut dispatcher = AppDispatcher {
        keeper,
        splits,
        evaluations,
        alloc,
        spelling: Spelling::Raw,
        service,
        sessions,
        viewer_caches: &mut viewer_caches,
        lazy,
        label_texts: &mut label_texts,
    };
    jac_connections::serve_link(&mut dispatcher, conn, first, link, audit)
}
