//! Laws of a turn's answer. A function has an empty body: its contract is the law.

ghost use Rattle.std.specs.Prelude.{◌≡◌};
ghost use Rattle.account_machine.specs.declared.answer.Answer.TheVariants as answers;
ghost use Rattle.account_machine.specs.declared.entry.Entry.{Entry as MachineEntry};
ghost use Rattle.share_api.specs.Contents.{Bytes};
ghost use Rattle.share_api.specs.Seen.{ShareSeen};
ghost use Rattle.user_state.specs.declared.state.UserState.{UserState as StateSeen};
ghost use Rattle.user_turn.specs.Acts.{IsAct};

/// An entry of a turn that was answered that a record is damaged may be answered that there was no memory.
pub fn damage_may_be_no_memory()
    ensures { (old new : ShareSeen) (before after : StateSeen) (entry : MachineEntry) (name : Bytes)
        → entry.answer ≡ answers.Damaged name
        → IsAct old new before after entry
        → IsAct old new before after (record entry { answer = answers.NoMemory }) }
{}
