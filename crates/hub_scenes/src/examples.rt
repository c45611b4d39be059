ghost use Rattle.hub_scenes.specs.Examples.{SceneExamples};

/// A hub over the scene, entry by entry: rows arrive, a try comes too early, and both steps of a log are done.
pub fn scene_examples()
    ensures examples { SceneExamples }
{}
