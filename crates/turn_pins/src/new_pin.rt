//! What a new PIN is made of, drawn before its edit.

ghost use Rattle.std.specs.Prelude.{◌≡◌, ◌≤◌, ◌<◌, ◌^◌, IfOk, IfSome, IsOk};
ghost use Rattle.account_machine.specs.Effect.{schedule_of};
ghost use Rattle.account_machine.specs.declared.factor.Kind.TheVariants.{Pin};
ghost use Rattle.pin_edits.specs.declared.pin_stash.NewPin.{NewPin as PinSeen};
ghost use Rattle.random_values.specs.Stretches.{moved};
ghost use Rattle.scrypt_kdf.specs.Derive.{derive};
ghost use Rattle.stash_format.specs.declared.contents.Contents.{Contents as StashSeen};
ghost use Rattle.stored_home.specs.declared.derived.Derived.{Derived as DerivedSeen};
ghost use Rattle.user_state.specs.Outlines.{next_in};
ghost use Rattle.turn_edits.specs.Endings.{Draws};

use ct_bytes::{NoMemory, Text};
use home_edits::Ivs;
use pin_edits::NewPin;
use pw_types::Schedule;
use random_values::Generator;
use scrypt_kdf::derive;
use std::alloc::Global;
use stored_home::{Derived, Stored};

// A key that is derived of the secret with a new salt and this cost.
fn derive_new(
    alloc: Global,
    generator: &mut Generator,
    cost: u8,
    secret: &Text,
) -> Result<Derived, NoMemory>
    requires least { 1 ≤ cost }
    requires most { cost ≤ 16 }
    ensures cost { IfOk result (λ (derived : DerivedSeen). derived.cost ≡ cost) }
    ensures key { IfOk result (λ (derived : DerivedSeen). derived.key ≡ derive secret.now derived.salt derived.cost) }
    ensures draws { Draws 0 4 generator.old generator.new }
{
    let salt = generator.salt();
    let key = derive(alloc, secret.as_str().as_bytes(), &salt, cost)?;
    Ok(Derived { salt, cost, key })
}

// A key that is derived of the secret with this cost: the given one where its cost is this, and else a new one.
fn derived_key(
    alloc: Global,
    generator: &mut Generator,
    cost: u8,
    secret: &Text,
    given: Option<Derived>,
) -> Result<Derived, NoMemory>
    requires least { 1 ≤ cost }
    requires most { cost ≤ 16 }
    requires given { IfSome given
        (λ (derived : DerivedSeen). derived.key ≡ derive secret.now derived.salt derived.cost) }
    ensures cost { IfOk result (λ (derived : DerivedSeen). derived.cost ≡ cost) }
    ensures key { IfOk result (λ (derived : DerivedSeen). derived.key ≡ derive secret.now derived.salt derived.cost) }
    ensures draws { Draws 0 4 generator.old generator.new }
{
    match given {
        Some(derived) => {
            if derived.cost == cost {
                Ok(derived)
            } else {
                derive_new(alloc, generator, cost, secret)
            }
        }
        None => derive_new(alloc, generator, cost, secret),
    }
}

/// The schedule of a PIN that is given this one or none.
pub(crate) fn schedule_of(given: Option<Schedule>) -> Schedule
    ensures { result ≡ schedule_of Pin given }
{
    match given {
        Some(schedule) => schedule,
        None => Schedule::usual(),
    }
}

/// A PIN with this schedule, of which the high-entropy secret and the reset secret are drawn.
pub(crate) fn new_pin(
    alloc: Global,
    generator: &mut Generator,
    cost: u8,
    secret: &Text,
    given: Option<Derived>,
    schedule: Schedule,
) -> Result<NewPin, NoMemory>
    requires least { 1 ≤ cost }
    requires most { cost ≤ 16 }
    requires given { IfSome given
        (λ (derived : DerivedSeen). derived.key ≡ derive secret.now derived.salt derived.cost) }
    ensures cost { IfOk result (λ (pin : PinSeen). pin.derived.cost ≡ cost) }
    ensures key { IfOk result (λ (pin : PinSeen). pin.derived.key
        ≡ derive secret.now pin.derived.salt pin.derived.cost) }
    ensures schedule { IfOk result (λ (pin : PinSeen). pin.schedule ≡ schedule) }
    ensures draws { Draws 0 20 generator.old generator.new }
    ensures fresh { IsOk result → Draws 16 20 generator.old generator.new }
{
    let derived = derived_key(alloc, generator, cost, secret, given)?;
    let high = generator.key();
    let reset = generator.key();
    Ok(NewPin {
        derived,
        schedule,
        high,
        reset,
    })
}

/// The IVs of a block and of a payload.
pub(crate) fn new_ivs(generator: &mut Generator) -> Ivs
    ensures { generator.new ≡ moved generator.old 6 }
{
    let block = generator.iv();
    let payload = generator.iv();
    Ivs { block, payload }
}

/// The edition that the next factor gets.
pub(crate) fn next_edition(stored: &Stored) -> u64
    ensures value { result ≡ next_in stored.now.stash }
    ensures from { IfSome stored.now.stash (λ (stash : StashSeen). 1 ≤ stash.next) }
    ensures within { IfSome stored.now.stash (λ (stash : StashSeen). stash.next < 2 ^ 64) }
{
    match &stored.stash {
        None => 1,
        Some(stash) => stash.next(),
    }
}
