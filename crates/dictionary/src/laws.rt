//! What follows of the shards of a recovered heap, as a function with nothing to run.
ghost use Rattle.std.specs.Prelude.{◌<◌, ℕ};
ghost use Rattle.heap_model.specs.Image.{Image};
ghost use Rattle.dict_model.specs.Links.{shards};
ghost use Rattle.dict_model.specs.Shards.{Map, MapOf, BadShard};
ghost use Rattle.dictionary.specs.Reading.{RecoversTo};

/// The map of a shard of a recovered heap, and its first bad place where it has none, are those of
/// the image that was recovered.
pub fn recovery_keeps_each_shard()
    ensures map { (old new : Image) → RecoversTo old new → (shard : ℕ) (map : Map) → shard < shards
        → MapOf new shard map → MapOf old shard map }
    ensures bad { (old new : Image) → RecoversTo old new → (shard at : ℕ) → shard < shards
        → BadShard new shard at → BadShard old shard at }
{}
