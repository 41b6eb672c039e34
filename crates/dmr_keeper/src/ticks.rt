//! Ticks, counted over all terms.

ghost use Rattle.std.specs.Prelude.{◌≡◌, ◌<◌, ◌^◌};
ghost use Rattle.dmr_keeper.specs.Ticks.{is_tick as counts, tick_at};

use dmr_core::Event;

/// Reports whether an event is a Tick.
pub fn is_tick(event: &Event) -> bool
    ensures { result ≡ counts event.now }
{
    match event {
        Event::Tick => true,
        Event::Up(_)
        | Event::Lost(_)
        | Event::Heard(_, _)
        | Event::Noise(_)
        | Event::Active(_)
        | Event::Poll(_)
        | Event::Say(_) => false,
    }
}

/// The ticks with that of an event. They must fit in 64 bits.
pub fn tick_with(ticks: u64, event: &Event) -> u64
    requires { tick_at ticks event.now < 2 ^ 64 }
    ensures { result ≡ tick_at ticks event.now }
{
    if is_tick(event) { ticks + 1 } else { ticks }
}
