//! Classes of live epochs, by place and by name.
ghost use Rattle.std.specs.Prelude.{◌≡◌, ◌<◌, bytes_eq, length, position, IfNone, IfSome};
ghost use Rattle.sq_engine.specs.EngineViews.{state_of};
ghost use Rattle.sq_replay.specs.Naming.{IsNamed, IsNowhere};

use sq_base::{EpochNo, Text};
use sq_engine::Engine;
use sq_rules::{Class, Config};

// The place of the first class of this name.
fn place_among(classes: &[Class], name: &Text) -> Option<usize>
    ensures first { result ≡ position (λ class. bytes_eq class.name name.now) classes.now }
    ensures inside { IfSome result (λ i. i < length classes.now) }
{
    let name = name.as_bytes();
    classes
        .iter()
        .position(|class| class.name.as_bytes() == name)
}

// The place of the class of this name in a configuration.
fn place_in(config: &Config, name: &Text) -> Option<u32>
    ensures { result ≡ position (λ class. bytes_eq class.name name.now) config.now.classes }
{
    match place_among(config.classes(), name) {
        Some(place) => Some(place as u32),
        None => None,
    }
}

// The place of the class of this name in a live epoch.
pub(crate) fn place_of(engine: &Engine, epoch: EpochNo, name: &Text) -> Option<u32>
    ensures some { IfSome result (λ place. IsNamed (state_of engine.now) epoch place name.now) }
    ensures none { IfNone result (IsNowhere (state_of engine.now) epoch name.now) }
{
    let Some(config) = engine.config(epoch) else {
        return None;
    };
    place_in(config, name)
}
