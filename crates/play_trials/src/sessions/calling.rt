//! Sessions of who writes a log, by an agent that nobody shares.

ghost use Rattle.std.specs.Prelude.{IfSome};
ghost use Rattle.log_model.specs.Spelling.{IsMoment};
ghost use Rattle.play_trials.specs.InProgress.{GoesOn, judges};

use crate::sessions::driving::{begin, drive, publishing};
use crate::sessions::table::Table;
use crate::sessions::writer::Writer;
use crate::text::Text;
use crate::words::{NEVER, Words};
use ivy_agent::Single;
use ivy_base::Moment;
use ivy_session::Session;
use log_heads::HssJudge;
use std::sync::Wait;

/// Adds what a session asks and comes to, whose moment and message the words say. There is none for an agent in no view.
pub fn call<R: Wait>(
    rt: &R,
    text: &mut Text,
    table: &mut Table,
    writer: &mut Writer,
    words: &mut Words<'_>,
) {
    if writer.agent.view().is_none() {
        text.lack();
        return;
    }
    let now = words.moment();
    let message = words.bytes();
    let session = begin(
        rt,
        text.alloc,
        &Single,
        table,
        &mut writer.agent,
        message.as_slice(),
    );
    serve(rt, text, table, writer, session, now);
}

/// Adds what a session asks and comes to that only publishes. There is none for an agent in no view.
pub fn publish<R: Wait>(rt: &R, text: &mut Text, table: &mut Table, writer: &mut Writer) {
    if writer.agent.view().is_none() {
        text.lack();
        return;
    }
    let session = publishing(text.alloc, table, writer.agent.pending());
    serve(rt, text, table, writer, session, NEVER);
}

/// Adds what a session that has begun asks and comes to.
fn serve<R: Wait>(
    rt: &R,
    text: &mut Text,
    table: &mut Table,
    writer: &mut Writer,
    session: Option<Session<HssJudge>>,
    now: Moment,
)
    requires moment { IsMoment now }
    requires goes_on { IfSome session (GoesOn judges writer.old.agent.agent.view) }
{
    match session {
        Some(mut session) => drive(
            rt,
            text,
            &Single,
            table,
            &mut writer.agent,
            &mut writer.cache,
            &mut session,
            now,
        ),
        None => text.lack(),
    }
}
