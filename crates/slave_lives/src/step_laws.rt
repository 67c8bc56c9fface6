//! A step of a slave's processor.

ghost use Rattle.std.specs.Prelude.{◌≡◌, ◌<◌, ℕ, Bool};
ghost use Rattle.frames_seen.specs.of_esc_registers.declared.registers.Registers.{Registers};
ghost use Rattle.frames_seen.specs.of_exchange_model.Exchange.{Exchange};
ghost use Rattle.frames_seen.specs.of_frame_view.View.{Lens};
ghost use Rattle.frames_seen.specs.Slaves.{IsOpen, registers_seen, slave_of};
ghost use Rattle.frames_seen.specs.of_link_model.Slave.{node_look, node_serve};
ghost use Rattle.frames_seen.specs.of_link_mails.Body.{Body};
ghost use Rattle.frames_seen.specs.of_mailbox_slave.Kept.{Kept};
ghost use Rattle.frames_seen.specs.of_mailbox_slave.Node.{in_side, node_of, server_of};
ghost use Rattle.frames_seen.specs.of_segment_model.Slaves.{Serving, Processor, slave_steps};
ghost use Rattle.slave_lives.specs.Steps.{Running, IsServedAs, HasStepped, StaysUp, Stands, KeepsOthers, word_carried};

/// A step of a running slave: what its registers, its box and its server are behind it is seen as the session's step.
pub fn step_view<S, V, A, Q, R>()
    ensures { (x : Exchange V A Body Q R) (processor : Processor V) (u : Running S) (f : ℕ → S → Serving V Body)
        (boot : Bool) (r q : Registers) (k j : Kept) (s t : S) → IsServedAs x processor u f → processor.carry (registers_seen r) ≡ word_carried boot r →
        HasStepped u boot r q k j s t → StaysUp boot r →
        slave_of j q (f (registers_seen q).state t) ≡ slave_steps x processor (slave_of k r (f (registers_seen r).state s)) }
{}

/// A slave stays open over a step, and what stands in its mailbox 1 was offered by its box.
pub fn open_step<S>()
    ensures { (lens : ℕ → Lens) (u : Running S) (boot : Bool) (r q : Registers) (k j : Kept) (s t : S) →
        IsOpen lens r → Stands (in_side k r) → KeepsOthers r q → HasStepped u boot r q k j s t → StaysUp boot r → q.al_status < 32 → q.al_code < 65536 → IsOpen lens q × Stands (in_side j q) }
{}

/// What a running step says that makes its five parts is a step of a slave that stays up.
pub fn pdi_law<S>()
    ensures { (u : Running S) (boot : Bool) (r q : Registers) (k j : Kept) (s t : S) → StaysUp boot r → registers_seen q ≡ word_carried boot r →
        node_of j q t ≡ node_serve (server_of u.take u.next u.rest (word_carried boot r).state) (node_look (node_of k r s)) → HasStepped u boot r q k j s t }
{}
