// Waiting for a change's mark.
ghost use Rattle.std.specs.Prelude.{◌≡◌, IfSome};
ghost use Rattle.generations.specs.Beginnings.{GoesOn};
ghost use Rattle.intake.specs.Editors.{with_known};
ghost use Rattle.service_actors.specs.Edited.{IsSameEditor};
ghost use Rattle.service_actors.specs.Settled.{IsMarkOf};

use crate::coordinator::Coordinator;
use crate::stop_cause::StopCause;
use generations::Mark;
use intake::{Editor, Standing};
use packet_ways::BoardName;
use std::sync::Wait;
use std::thread;

// Learns what was told last, and hands out its turn. None where all stop.
pub(crate) fn learn_news<J: BoardName, R: Wait>(
    rt: &R,
    coordinator: &Coordinator<J>,
    editor: &mut Editor,
) -> Option<u64>
    requires { editor.old.known.opening ≡ J.opening }
    ensures same { editor.new ≡ with_known editor.old editor.new.known }
    ensures kept { GoesOn editor.old.known editor.new.known }
    ensures known { editor.new.known.opening ≡ J.opening }
{
    let news = coordinator.news(rt);
    if news.stopped {
        return None;
    }
    editor.learn(news.stand.told.told());
    Some(news.turn)
}

// Waits until the last ticket is settled. Without an answer all stop.
pub(crate) fn settled<J: BoardName, R: Wait>(
    rt: &R,
    coordinator: &Coordinator<J>,
    editor: &mut Editor,
) -> Option<Mark>
    requires { editor.old.known.opening ≡ J.opening }
    ensures same { IsSameEditor editor.old editor.new }
    ensures known { editor.new.known.opening ≡ J.opening }
    ensures none_put { editor.new.put ≡ editor.old.put }
    ensures mark { IfSome result (λ mark. IsMarkOf editor.new mark) }
{
    for _ in rt.forever() {
        let turn = learn_news(rt, coordinator, editor)?;
        match editor.standing() {
            Ok(Standing::Settled(mark)) => return Some(mark),
            Ok(Standing::Waiting) | Ok(Standing::Down) => coordinator.await_news(rt, turn),
            Ok(Standing::Nothing) => {
                coordinator.stop(rt, StopCause::Internal);
                return None;
            }
            Err(_) => thread::yield_now(),
        }
    }
    unreachable!()
}
