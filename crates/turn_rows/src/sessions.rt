//! Sessions are started, moved on and ended.

ghost use Rattle.std.specs.Prelude.{◌≡◌, ◌+◌, ℕ, List, Some, option_map};
ghost use Rattle.account_machine.specs.declared.answer.Answer.TheVariants as answers;
ghost use Rattle.account_machine.specs.declared.request.Request.TheVariants.{StartSession, ExtendSession, EndSession};
ghost use Rattle.account_machine.specs.declared.request.Turn.TheVariants.{Act};
ghost use Rattle.random_values.specs.Stretches.{moved, stretch};
ghost use Rattle.share_api.specs.Seen.{ShareSeen};
ghost use Rattle.user_state.specs.Sound.{IsSound};
ghost use Rattle.user_state.specs.Outlines.{outline_in};
ghost use Rattle.user_state.specs.Turns.{IsGiven};
ghost use Rattle.turn_rows.specs.Due.{IsReady, IsDue};
ghost use Rattle.turn_rows.specs.Ends.{ends_of};

use account_machine::{Answer, Intent, Token};
use user_state::UserState;

/// How long a new session lasts, in seconds.
const SESSION_SECONDS: u64 = 300;

/// Starts a session. The tail of its token is the next stretch of the account's generator.
pub fn start_session(state: &mut UserState, intent: Intent) -> Answer
    requires ready { IsReady state.old }
    requires due { IsDue state.old (Act (StartSession state.old.account intent)) }
    ensures given { (share : ShareSeen) (account : List ℕ)
        → IsGiven share share state.old state.new (Act (StartSession account intent)) result }
    ensures answer { result ≡ answers.OkSession (state.old.last + 300) (record {
      number = state.old.sessions.next;
      tail = stretch state.old.generator.key state.old.generator.position 4;
    }) }
    ensures sound { IsSound state.old → IsSound state.new }
    ensures last { state.new.last ≡ state.old.last }
    ensures doubt { state.new.doubt ≡ state.old.doubt }
    ensures draws { state.new.generator ≡ moved state.old.generator 4 }
{
    // a number is left, since the row's refusals don't apply
    let number = state.sessions.next();
    prove!(number < u64::MAX);
    let tail = state.generator.salt();
    let ends = state.last + SESSION_SECONDS;
    let token = state.sessions.start(intent, tail, state.last);
    Answer::OkSession { ends, token }
}

/// Moves a session's end by so many seconds, to at most 600 seconds from now.
pub fn extend_session(state: &mut UserState, token: &Token, seconds: u64) -> Answer
    requires ready { IsReady state.old }
    requires due { IsDue state.old (Act (ExtendSession state.old.account token.now seconds)) }
    ensures given { (share : ShareSeen) (account : List ℕ)
        → IsGiven share share state.old state.new (Act (ExtendSession account token.now seconds)) result }
    ensures answer { option_map answers.OkEnds
        (ends_of (outline_in state.old) (Act (ExtendSession state.old.account token.now seconds)) state.old.last)
        ≡ Some result }
    ensures sound { IsSound state.old → IsSound state.new }
    ensures last { state.new.last ≡ state.old.last }
    ensures doubt { state.new.doubt ≡ state.old.doubt }
    ensures draws { state.new.generator ≡ state.old.generator }
{
    let Some(at) = state.sessions.place(token) else {
        unreachable!()
    };
    Answer::OkEnds(state.sessions.extend(at, seconds, state.last))
}

/// Drops a session.
pub fn end_session(state: &mut UserState, token: &Token) -> Answer
    requires ready { IsReady state.old }
    requires due { IsDue state.old (Act (EndSession state.old.account token.now)) }
    ensures given { (share : ShareSeen) (account : List ℕ)
        → IsGiven share share state.old state.new (Act (EndSession account token.now)) result }
    ensures answer { result ≡ answers.Ok }
    ensures sound { IsSound state.old → IsSound state.new }
    ensures last { state.new.last ≡ state.old.last }
    ensures doubt { state.new.doubt ≡ state.old.doubt }
    ensures draws { state.new.generator ≡ state.old.generator }
{
    let Some(at) = state.sessions.place(token) else {
        unreachable!()
    };
    state.sessions.end(at);
    Answer::Ok
}
