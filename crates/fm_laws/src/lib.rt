//! Laws: functions that do nothing and whose contracts are theorems. A function has a theorem where it calls its law.
//!
//! <!-- cut: tests/unit/src/fm_laws_calls.rt.in -->
//! ```rust
//! laws::counts_add_up();
//! laws::merging_is_lawful();
//! laws::valid_is_without_fault();
//! ```
#![tactic(auto)]

ghost use Rattle.std.specs.Prelude.{◌≡◌, ◌+◌, ◌⊎◌, ◌↔◌, ℕ, ℤ, pos, List, [], Some, map, slice_get, take};
ghost use Rattle.std.specs.Ordering.{int_cmp};
ghost use Rattle.std.specs.declared.cmp.Ordering.TheVariants.{Less, Equal, Greater};
ghost use Rattle.fm_grammar.specs.Exposition.{Label, Sample, Whole};
ghost use Rattle.fm_grammar.specs.Law.{OneReading};
ghost use Rattle.fm_grammar.specs.Names.{AllDifferent, IsSnakeCase};
ghost use Rattle.fm_raw.specs.Metadata.{IsSameMetric};
ghost use Rattle.fm_raw.specs.declared.bucket.bound.Bound.TheVariants.{Finite, Inf};
ghost use Rattle.fm_raw.specs.declared.bucket.bound.Bucket.{Bucket};
ghost use Rattle.fm_raw.specs.declared.metadata.Metadata.{Metadata};
ghost use Rattle.fm_raw.specs.contracts.bucket.bound.BoundOrd.TheImpl.{ghosts as bound_order};
ghost use Rattle.fm_raw.specs.contracts.fixed.FixedOrd.TheImpl.{ghosts as fixed_order};
ghost use Rattle.fm_raw.specs.contracts.fixed.FixedSumOrd.TheImpl.{ghosts as sum_order};
ghost use Rattle.fm_raw.specs.contracts.metadata.MetadataHash.TheImpl.{ghosts as hashes};
ghost use Rattle.fm_raw.specs.declared.encode_error.EncodeError.{EncodeError};
ghost use Rattle.fm_encoder.specs.Points.{Context, Member, MembersValid, MembersFault, EmittedExemplar, Setting, values_in, bucket_samples};
ghost use Rattle.fm_registry_rules.specs.Texts.{Path};
ghost use Rattle.fm_registry_rules.specs.Taken.{AreSeparate, tails_of};
ghost use Rattle.fm_registry_rules.specs.History.{History, metrics_at, children_at};
ghost use Rattle.fm_registry_rules.specs.Accepted.{IsHistory};
ghost use Rattle.fm_registry_rules.specs.Listing.{listed_name, order};
ghost use Rattle.fm_histogram.specs.Histogram.{Histogram, histogram_of, merged, upper_bounds};
ghost use Rattle.fm_laws.specs.Ranges.{NumbersFit};

/// No text is the document of two different well-formed expositions.
pub fn unique_readability()
    ensures { OneReading }
{}

/// `Fixed` and `FixedSum` are ordered as their numbers of millionths.
pub fn numbers_are_ordered()
    ensures fixed { (a b : ℤ) → fixed_order.cmp a b ≡ int_cmp a b }
    ensures sum { (a b : ℤ) → sum_order.cmp a b ≡ int_cmp a b }
{}

/// Bounds are ordered as their numbers, and `Inf` is the greatest.
pub fn bounds_are_ordered()
    ensures finite { (a b : ℤ) → bound_order.cmp (Finite a) (Finite b) ≡ int_cmp a b }
    ensures below { (a : ℤ) → bound_order.cmp (Finite a) Inf ≡ Less }
    ensures above { (a : ℤ) → bound_order.cmp Inf (Finite a) ≡ Greater }
    ensures same { bound_order.cmp Inf Inf ≡ Equal }
{}

/// Equal metadata have equal hashes: they write the same into a hasher.
pub fn equal_metadata_hash_alike()
    ensures { (a b : Metadata) → IsSameMetric a b → hashes.hash_input a ≡ hashes.hash_input b }
{}

/// A valid offer contains no fault. If a family's name is in snake case, as every registered one is, and the numbers of
/// an offer are in range, the offer is valid exactly if it contains no fault; and it is valid, or some error names a
/// fault that it contains.
pub fn valid_is_without_fault()
    ensures faultless { (context : Context) (members : List Member)
        → MembersValid context members
        → (k : EncodeError) → ¬ (MembersFault k context members) }
    ensures exact { (context : Context) (members : List Member)
        → IsSnakeCase context.setting.name
        → NumbersFit context members
        → (MembersValid context members
        ↔ ((k : EncodeError) → ¬ (MembersFault k context members))) }
    ensures either { (context : Context) (members : List Member)
        → IsSnakeCase context.setting.name
        → NumbersFit context members
        → MembersValid context members ⊎ ((k : EncodeError) × MembersFault k context members) }
{}

/// The sample of the bucket at an index shows how many values this bucket and those before it have together.
pub fn counts_add_up()
    ensures { (setting : Setting) (common : List Label) (buckets : List Bucket)
        (slots : List (List EmittedExemplar)) (i : ℕ) (sample : Sample)
        → slice_get (bucket_samples setting common [] buckets slots) i ≡ Some sample
        → sample.value ≡ Whole (pos (values_in (take (i + 1) buckets))) }
{}

/// Merging is commutative and associative, and the empty histogram changes nothing.
pub fn merging_is_lawful()
    ensures commutative { (s t : Histogram)
        → upper_bounds s.buckets ≡ upper_bounds t.buckets → merged s t ≡ merged t s }
    ensures associative { (s t u : Histogram) → merged (merged s t) u ≡ merged s (merged t u) }
    ensures neutral { (bounds xs : List ℤ)
        → merged (histogram_of bounds xs) (histogram_of bounds []) ≡ histogram_of bounds xs }
{}

/// In every history of accepted calls the rules for names hold in each registry, and no two of all its metrics have the
/// same name in the exposition.
pub fn names_are_different<M>()
    ensures rules { (b : History M) (path : Path) → IsHistory b
        → AreSeparate (tails_of (metrics_at b.calls path)) (children_at b.calls path) }
    ensures names { (b : History M) → IsHistory b → AllDifferent (map listed_name (order b)) }
{}
