// The phase of a task, as one machine that is stepped in place.
ghost use Rattle.std.specs.Prelude.{◌≡◌};
ghost use Rattle.rules.specs.Phases.{stepped};

#[derive(Clone, Copy, PartialEq, Eq)]
pub enum Phase {
    Ready,
    Waiting,
    Finished,
}

#[derive(Clone, Copy)]
pub enum Event {
    Wait,
    Wake,
    Finish,
    Deadline,
}

impl Phase {
    // One match on the phase together with the event, in place: the form that a machine is to have here.
    pub fn step(&mut self, event: Event)
        ensures { self.new ≡ stepped self.old event }
    {
        *self = match (*self, event) {
            (Phase::Ready, Event::Wait) => Phase::Waiting,
            (Phase::Waiting, Event::Wake) => Phase::Ready,
            (Phase::Ready, Event::Finish) => Phase::Finished,
            (Phase::Finished, Event::Deadline) => Phase::Ready,
            (phase, _) => phase,
        };
    }
}
