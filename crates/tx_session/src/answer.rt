//! What an engine asks for, answered by a store.

ghost use Rattle.std.specs.Prelude.{◌≡◌, Some, IsSome};
ghost use Rattle.tx_eqtb.specs.Meanings.{meanings};
ghost use Rattle.tx_store.specs.Steps.{HasRoom, IsHeld};
ghost use Rattle.tx_run.specs.declared.op.Op.TheVariants as op;
ghost use Rattle.tx_engine.specs.Standing.{IsReady, Serves};
ghost use Rattle.tx_engine.specs.Steps.{due, IsAnswered, MayAsk};
ghost use Rattle.tx_session.specs.Replies.{GoesOn};

use tx_engine::{Engine, Phase};
use tx_run::Op;
use tx_store::Store;
use tx_tok::Toks;

/// Answers an operation. Where memory is wanting for it, that is the answer.
pub(crate) fn answers<S: Store>(rt: &S::Rt, store: &mut S, engine: &mut Engine, operation: Op)
    requires phase { engine.old.phase ≡ Phase.Runs }
    requires ready { IsReady (meanings (S.session store.old).format.frozen) engine.old }
    requires serves { Serves (S.session store.old) engine.old }
    requires due { due engine.old ≡ Some operation }
    requires may { MayAsk (S.session store.old) operation }
    ensures format { (S.session store.new).format ≡ (S.session store.old).format }
    ensures answered { IsAnswered engine.old engine.new }
    ensures serves { Serves (S.session store.new) engine.new }
    ensures stands { GoesOn (S.session store.old) engine.old (S.session store.new) engine.new }
{
    match operation {
        Op::Find => finds(rt, store, engine),
        Op::Intern => interns(rt, store, engine),
        Op::Text(number) => tells(rt, store, engine, number),
        Op::Share => shares(rt, store, engine),
        Op::Take(id) => takes(rt, store, engine, id),
        Op::Release(id) => releases(rt, store, engine, id),
        Op::Read(id) => reads(rt, store, engine, id),
    }
}

/// The number of the name that was taken is found, if there is one.
fn finds<S: Store>(rt: &S::Rt, store: &mut S, engine: &mut Engine)
    requires phase { engine.old.phase ≡ Phase.Runs }
    requires ready { IsReady (meanings (S.session store.old).format.frozen) engine.old }
    requires serves { Serves (S.session store.old) engine.old }
    requires due { due engine.old ≡ Some op.Find }
    ensures format { (S.session store.new).format ≡ (S.session store.old).format }
    ensures answered { IsAnswered engine.old engine.new }
    ensures serves { Serves (S.session store.new) engine.new }
    ensures stands { GoesOn (S.session store.old) engine.old (S.session store.new) engine.new }
{
    engine.has_what_is_due();
    let text = engine.name().unwrap();
    let number = store.find(rt, text);
    store.is_sound();
    engine.found(number);
}

/// The name that was taken gets a number.
fn interns<S: Store>(rt: &S::Rt, store: &mut S, engine: &mut Engine)
    requires phase { engine.old.phase ≡ Phase.Runs }
    requires ready { IsReady (meanings (S.session store.old).format.frozen) engine.old }
    requires serves { Serves (S.session store.old) engine.old }
    requires due { due engine.old ≡ Some op.Intern }
    ensures format { (S.session store.new).format ≡ (S.session store.old).format }
    ensures answered { IsAnswered engine.old engine.new }
    ensures serves { Serves (S.session store.new) engine.new }
    ensures stands { GoesOn (S.session store.old) engine.old (S.session store.new) engine.new }
{
    engine.has_what_is_due();
    let text = engine.name().unwrap();
    let interned = store.intern(rt, text);
    store.is_sound();
    match interned {
        Ok(number) => engine.interned(number),
        Err(_) => engine.no_memory(),
    }
}

/// The text of a name is told.
fn tells<S: Store>(rt: &S::Rt, store: &mut S, engine: &mut Engine, number: u64)
    requires phase { engine.old.phase ≡ Phase.Runs }
    requires ready { IsReady (meanings (S.session store.old).format.frozen) engine.old }
    requires serves { Serves (S.session store.old) engine.old }
    requires due { due engine.old ≡ Some (op.Text number) }
    requires may { IsSome ((S.session store.old).names number) }
    ensures format { (S.session store.new).format ≡ (S.session store.old).format }
    ensures answered { IsAnswered engine.old engine.new }
    ensures serves { Serves (S.session store.new) engine.new }
    ensures stands { GoesOn (S.session store.old) engine.old (S.session store.new) engine.new }
{
    let mut text = Vec::new(engine.alloc());
    let told = store.text(rt, number, &mut text);
    store.is_sound();
    match told {
        Ok(()) => engine.text(text.as_slice()),
        Err(_) => engine.no_memory(),
    }
}

/// A list is shared.
fn shares<S: Store>(rt: &S::Rt, store: &mut S, engine: &mut Engine)
    requires phase { engine.old.phase ≡ Phase.Runs }
    requires ready { IsReady (meanings (S.session store.old).format.frozen) engine.old }
    requires serves { Serves (S.session store.old) engine.old }
    requires due { due engine.old ≡ Some op.Share }
    requires may { HasRoom (S.session store.old) }
    ensures format { (S.session store.new).format ≡ (S.session store.old).format }
    ensures answered { IsAnswered engine.old engine.new }
    ensures serves { Serves (S.session store.new) engine.new }
    ensures stands { GoesOn (S.session store.old) engine.old (S.session store.new) engine.new }
{
    engine.has_what_is_due();
    let list = engine.list().unwrap();
    let shared = store.share(rt, list);
    store.is_sound();
    match shared {
        Ok(reference) => engine.shared(reference),
        Err(_) => engine.no_memory(),
    }
}

/// The content of a list is read.
fn reads<S: Store>(rt: &S::Rt, store: &mut S, engine: &mut Engine, id: u64)
    requires phase { engine.old.phase ≡ Phase.Runs }
    requires ready { IsReady (meanings (S.session store.old).format.frozen) engine.old }
    requires serves { Serves (S.session store.old) engine.old }
    requires due { due engine.old ≡ Some (op.Read id) }
    requires may { IsHeld (S.session store.old) id }
    ensures format { (S.session store.new).format ≡ (S.session store.old).format }
    ensures answered { IsAnswered engine.old engine.new }
    ensures serves { Serves (S.session store.new) engine.new }
    ensures stands { GoesOn (S.session store.old) engine.old (S.session store.new) engine.new }
{
    let mut tokens = Vec::new(engine.alloc());
    let read = store.read(rt, id, &mut tokens);
    store.is_sound();
    match read {
        Ok(()) => engine.read(Toks(tokens)),
        Err(_) => engine.no_memory(),
    }
}

/// The session holds a list once more.
fn takes<S: Store>(rt: &S::Rt, store: &mut S, engine: &mut Engine, id: u64)
    requires phase { engine.old.phase ≡ Phase.Runs }
    requires ready { IsReady (meanings (S.session store.old).format.frozen) engine.old }
    requires serves { Serves (S.session store.old) engine.old }
    requires due { due engine.old ≡ Some (op.Take id) }
    requires may { IsHeld (S.session store.old) id }
    requires room { HasRoom (S.session store.old) }
    ensures format { (S.session store.new).format ≡ (S.session store.old).format }
    ensures answered { IsAnswered engine.old engine.new }
    ensures serves { Serves (S.session store.new) engine.new }
    ensures stands { GoesOn (S.session store.old) engine.old (S.session store.new) engine.new }
{
    store.take(rt, id);
    store.is_sound();
    engine.took_list();
}

/// It holds a list once less.
fn releases<S: Store>(rt: &S::Rt, store: &mut S, engine: &mut Engine, id: u64)
    requires phase { engine.old.phase ≡ Phase.Runs }
    requires ready { IsReady (meanings (S.session store.old).format.frozen) engine.old }
    requires serves { Serves (S.session store.old) engine.old }
    requires due { due engine.old ≡ Some (op.Release id) }
    requires may { IsHeld (S.session store.old) id }
    ensures format { (S.session store.new).format ≡ (S.session store.old).format }
    ensures answered { IsAnswered engine.old engine.new }
    ensures serves { Serves (S.session store.new) engine.new }
    ensures stands { GoesOn (S.session store.old) engine.old (S.session store.new) engine.new }
{
    store.release(rt, id);
    store.is_sound();
    engine.released();
}
