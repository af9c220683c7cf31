//! The scenes, and the words that name them.
ghost use Rattle.std.specs.Prelude.{◌≡◌};
ghost use Rattle.expose_io.specs.Scenes.{scene_called, scene_named};

use crate::output::Fault;
use fastmetrics::registry::RegistryError;
use std::alloc::Global;
use std::env;
use std::env::Env;
use std::io::ErrorKind;

/// What the program shows.
#[derive(Clone, Copy, Debug, PartialEq, Eq)]
pub enum Scene {
    /// An empty registry.
    Empty,
    /// A counted sum.
    Tally,
    /// A histogram of whole numbers.
    Histogram,
    /// A state set.
    States,
    /// A tree of metrics.
    Tree,
}

// The scene that a word names.
fn scene_of(word: &str) -> Option<Scene>
    ensures { result ≡ scene_called word.now }
{
    match word {
        "empty" => Some(Scene::Empty),
        "tally" => Some(Scene::Tally),
        "histogram" => Some(Scene::Histogram),
        "states" => Some(Scene::States),
        "tree" => Some(Scene::Tree),
        _ => None,
    }
}

/// The scene that just one word names.
pub fn choose(words: &[String]) -> Option<Scene>
    ensures { result ≡ scene_named words.now }
{
    match words {
        [word] => scene_of(word.as_str()),
        _ => None,
    }
}

/// The scene that the words after the program's name say. Words that are no text say none. It takes memory for the words.
pub fn scene_of_words<R: Env + Alloc<A = Global>>(rt: &R) -> Result<Scene, Fault> {
    let words = match env::args(rt) {
        Ok(words) => words,
        Err(error) if error.kind() == ErrorKind::InvalidData => return Err(Fault::UnknownScene),
        Err(_) => return Err(Fault::from(RegistryError::Memory)),
    };
    let mut given = Vec::new(rt.alloc());
    for word in words.skip(1) {
        given.push(word)?;
    }
    choose(&given).ok_or(Fault::UnknownScene)
}
