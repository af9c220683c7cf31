//! A registry that always reads a history, so that its callers need no clause.
ghost use Rattle.std.specs.Prelude.{◌≡◌, ◌⊎◌, ℕ, List, [], None, OnOk, IfOk, IfErr, IfSome, map, string_bytes};
ghost use Rattle.std.specs.Option.{option_map};
ghost use Rattle.std.specs.Io.KnownBytes.{Keeps};
ghost use Rattle.fm_grammar.specs.Exposition.{Text, Exposition};
ghost use Rattle.fm_exposition.specs.Written.{IsWritersFault};
ghost use Rattle.fm_raw.specs.declared.encode_error.EncodeError.{EncodeError};
ghost use Rattle.fm_registry_rules.specs.declared.error.RegistryError.TheVariants.{NoRandomKeys};
ghost use Rattle.fm_core.specs.HasHistory.{IsNewRoot};
ghost use Rattle.fm_registry_rules.specs.Lists.{seen_labels};
ghost use Rattle.fm_registry_rules.specs.inside.Fitting.{HasFittingHistory};
ghost use Rattle.fm_registry_rules.specs.Listing.{listed_tree};
ghost use Rattle.fm_core.specs.Admits.{AdmittedBy};
ghost use Rattle.fm_core.specs.Encoded.{IsAdmittedText, Writes, BeginsToWrite};
ghost use Rattle.fm_core.specs.Lint.{seen_warning, warnings_of_all};
ghost use Rattle.fastmetrics.specs.Fits.{HasOwnFault, HasOwnFaultNamed};
ghost use Rattle.fastmetrics.specs.inside.FittingMetrics.{Fits};

mod collectors;
mod constants;
mod families;
mod metrics;
mod own;
mod registering;
mod subsystems;

use crate::registry::fitting::only_own_faults;
use crate::registry::kinds::{Metric, NoOwn};
use crate::registry::maker::Waiter;
use fm_core::format::text::{DocumentBuffer, FamilyFault, collect, fault};
use fm_core::lint::{Warning, lint_registry};
use fm_core::registry::{Registry, RegistryBuilder, RegistryError};
use fm_encoder::EncodeMetric;
use fm_exposition::Exposition;
use fm_family::LabelHashing;
use fm_raw::EncodeError;
use std::alloc::{AllocError, Global};
use std::hash::RandomState;
use std::io::Write;
use std::marker::Model;
use std::random::RandomSource;
use std::sync::Wait;

// A hasher with keys that the system gives.
fn random_hashing<R: RandomSource>(rt: &R) -> Result<LabelHashing, RegistryError>
    ensures { IfErr result (λ e. e ≡ NoRandomKeys) }
{
    match RandomState::new(rt) {
        Ok(keys) => Ok(LabelHashing::Keyed(keys)),
        Err(_) => Err(RegistryError::NoRandomKeys),
    }
}

/// A registry of the library's usual metrics and of those of the type `X`, which are the program's own, with the subsystem in which
/// it registers: at first the root itself.
///
/// Its type says that it reads a history of accepted calls. So any function may make one, register in it, return it or keep it under
/// a lock, and no clause and no box is needed. Its metrics wait by the handle that it is made with.
///
/// <!-- cut: crates/server/src/main.rt -->
/// ```rust
/// let mut root: Root<_, Own> = Root::built(Registry::builder(), rt)?;
/// // ..
/// root.namespace("shop", &[("zone", "west")])?;
/// // ..
/// let load = root.fixed_gauge("load", "How busy the machine is")?;
/// // ..
/// load.set(Fixed::from_millionths(500_000));
/// ```
pub struct Root<H: Wait, X = NoOwn> {
    registry: Registry<Metric<H, X>>,
    // The names that lead to the subsystem in which it registers.
    path: Vec<String>,
    alloc: Global,
    wait: H,
    // How its families hash the values of labels.
    hashing: LabelHashing,
    // How many names lead to the registry to which `leave` goes back.
    base: usize,
}

impl<H: Wait, X> Model for Root<H, X> {
    ghost use Rattle.std.specs.Prelude.{map, string_bytes};
    ghost use Rattle.std.specs.Coded.{codes};
    ghost use Rattle.fm_registry_rules.specs.inside.Fitting.{HasFittingHistory};
    ghost use Rattle.fastmetrics.specs.inside.FittingMetrics.{Fits};
    ghost use Rattle.fm_metrics.specs.contracts.named_states.NamedStates as states;
    ghost use Rattle.fastmetrics.specs.Roots.{SeenRoot};
    ghost use Rattle.fastmetrics.specs.inside.RootCode.{seen_root_code};
    ghost use Rattle.fastmetrics.specs.declared.registry.kinds.Metric.{Metric};

    ghost Value = { SeenRoot H (Metric H X) };

    ghost coded = { seen_root_code H.code (Prim.hlevel (codes, states.the_row.coded)) };

    ghost view = { λ r. record {
      at = record { tree = r.registry; path = map string_bytes r.path.items };
      base = r.base;
      wait = r.wait;
    } };

    ghost invariant = { λ r. HasFittingHistory Fits r.registry };
}

impl<H: Wait + Drop, X: Drop> Drop for Root<H, X> {
    fn drop(self) {
        let Root {
            registry: _,
            path: _,
            alloc: _,
            wait: _,
            hashing: _,
            base: _,
        } = self;
    }
}

impl<H: Waiter + RandomSource + AllocGlobal> Root<H> {
    /// A root for the library's usual metrics, with no namespace, no labels and no metrics.
    ///
    /// It takes keys for the hashers of its families from the system, and fails with `NoRandomKeys` if that gives none. It takes no
    /// memory.
    pub fn new(rt: H) -> Result<Root<H>, RegistryError>
        ensures tree { IfOk result (λ root. IsNewRoot None [] root.at.tree) }
        ensures path { IfOk result (λ root. (root.at.path ≡ []) × (root.base ≡ 0)) }
        ensures error { IfErr result (λ e. e ≡ NoRandomKeys) }
    {
        let hashing = random_hashing(&rt)?;
        let alloc = rt.alloc();
        Ok(Root {
            registry: Registry::default(),
            path: Vec::new(alloc),
            alloc,
            wait: rt,
            hashing,
            base: 0,
        })
    }
}

impl<H: Waiter + RandomSource + AllocGlobal, X> Root<H, X> {
    /// A root for the library's usual metrics and those of the type `X`, with the namespace and the constant labels of the builder, and
    /// no metrics. It has the error of `new`, and takes no memory.
    pub fn built(builder: RegistryBuilder, rt: H) -> Result<Root<H, X>, RegistryError>
        ensures tree { IfOk result (λ root. IsNewRoot (option_map string_bytes builder.namespace)
            (seen_labels builder.const_labels) root.at.tree) }
        ensures path { IfOk result (λ root. (root.at.path ≡ []) × (root.base ≡ 0)) }
        ensures error { IfErr result (λ e. e ≡ NoRandomKeys) }
    {
        let hashing = random_hashing(&rt)?;
        let alloc = rt.alloc();
        Ok(Root {
            registry: builder.build_root(),
            path: Vec::new(alloc),
            alloc,
            wait: rt,
            hashing,
            base: 0,
        })
    }
}

impl<H: Waiter> Root<H> {
    /// A law, which does nothing: no metric of a root has a fault where the program has none of its own. So `collect` fails with
    /// `Memory` alone, `encode` with that or by the writer, and `fault` finds none.
    pub fn is_never_refused(&self)
        ensures any { (k : EncodeError)
            → HasOwnFault ⟦<NoOwn as EncodeMetric>⟧ k self.now.at.tree → ⊥ }
        ensures named { (name : Text) (k : EncodeError)
            → HasOwnFaultNamed ⟦<NoOwn as EncodeMetric>⟧ name k self.now.at.tree → ⊥ }
    {
        let _root = self;
    }
}

impl<H: Waiter, X> Root<H, X> {
    /// The allocator that it was made with.
    pub fn alloc(&self) -> Global {
        self.alloc
    }

    /// The handle that its metrics wait by.
    pub fn wait(&self) -> H
        ensures { result ≡ self.now.wait }
    {
        self.wait
    }
}

impl<H: Waiter, X: EncodeMetric> Root<H, X> {
    // The registry.
    fn registry(&self) -> &Registry<Metric<H, X>>
        ensures shown { result.now ≡ self.now.at.tree }
        ensures sound { HasFittingHistory Fits result.now }
    {
        &self.registry
    }

    /// The exposition of the registry: what `collect` returns for it, with its errors.
    pub fn collect(&self) -> Result<Exposition, EncodeError>
        ensures admitted { IfOk result
            (AdmittedBy ⟦<Metric<H, X> as EncodeMetric>⟧ self.now.at.tree) }
        ensures fault { IfErr result (λ k. (k ≡ EncodeError.Memory)
            ⊎ HasOwnFault X.EncodeMetric k self.now.at.tree) }
        ensures not_writing { IfErr result (λ k. ¬ (IsWritersFault k)) }
    {
        only_own_faults::<H, X>();
        collect(self.alloc(), self.registry())
    }

    /// Writes the document of the registry, as `encode` does for it, with its errors.
    pub fn encode<W: Write>(&self, writer: &mut W) -> Result<(), EncodeError>
        ensures document { OnOk result (Writes
            (⟦<Root<H, X> as Shown>⟧.is_document self.now)
            (W.contents writer.old) (W.contents writer.new)) }
        ensures refused { IfErr result (λ k. ¬ (IsWritersFault k)
            → Keeps (W.contents writer.old) (W.contents writer.new)
            × ((k ≡ EncodeError.Memory)
            ⊎ HasOwnFault X.EncodeMetric k self.now.at.tree)) }
        ensures stopped { IfErr result (λ k. IsWritersFault k → BeginsToWrite
            (⟦<Root<H, X> as Shown>⟧.is_document self.now)
            (W.contents writer.old) (W.contents writer.new)) }
    {
        self.encode_into(&mut DocumentBuffer::new(self.alloc()), writer)
    }

    /// Writes the document of the registry as `encode` does, and renders it in this buffer's memory, which a server keeps from one
    /// scrape to the next.
    pub fn encode_into<W: Write>(
        &self,
        buffer: &mut DocumentBuffer,
        writer: &mut W,
    ) -> Result<(), EncodeError>
        ensures document { OnOk result (Writes
            (⟦<Root<H, X> as Shown>⟧.is_document self.now)
            (W.contents writer.old) (W.contents writer.new)) }
        ensures refused { IfErr result (λ k. ¬ (IsWritersFault k)
            → Keeps (W.contents writer.old) (W.contents writer.new)
            × ((k ≡ EncodeError.Memory)
            ⊎ HasOwnFault X.EncodeMetric k self.now.at.tree)) }
        ensures stopped { IfErr result (λ k. IsWritersFault k → BeginsToWrite
            (⟦<Root<H, X> as Shown>⟧.is_document self.now)
            (W.contents writer.old) (W.contents writer.new)) }
    {
        only_own_faults::<H, X>();
        buffer.encode(writer, self.registry())
    }

    /// The first family that a document can't show at this moment, and why, or `None`: what a server prints where `encode` was refused.
    /// It collects the registry, so it waits as `collect` does.
    pub fn fault(&self) -> Result<Option<FamilyFault>, AllocError>
        ensures found { IfOk result (λ found. IfSome found (λ f.
            HasOwnFaultNamed X.EncodeMetric (string_bytes f.name) f.error self.now.at.tree)) }
        ensures none { IfOk result (λ found. found ≡ None → (e : Exposition)
            × AdmittedBy ⟦<Metric<H, X> as EncodeMetric>⟧ self.now.at.tree e) }
    {
        only_own_faults::<H, X>();
        fault(self.alloc(), self.registry())
    }

    /// What a linter advises of the metrics, also of those that show nothing yet. A test of the program may ask for it.
    pub fn lint(&self) -> Result<Vec<Warning>, AllocError>
        ensures { IfOk result (λ warnings. map seen_warning warnings.items
            ≡ warnings_of_all (listed_tree self.now.at.tree)) }
    {
        lint_registry(self.alloc(), self.registry())
    }

    /// The document of the registry, in memory: the body of a server's answer to a scrape. It has the errors of `collect`.
    pub fn document(&self) -> Result<Vec<u8>, EncodeError>
        ensures document { IfOk result (λ bytes. ⟦<Root<H, X> as Shown>⟧.is_document self.now bytes.items) }
        ensures fault { IfErr result (λ k. (k ≡ EncodeError.Memory)
            ⊎ HasOwnFault X.EncodeMetric k self.now.at.tree) }
    {
        let mut bytes = Vec::new(self.alloc());
        match self.encode(&mut bytes) {
            Ok(()) => Ok(bytes),
            Err(EncodeError::Write | EncodeError::WriteZero) => Err(EncodeError::Memory),
            Err(error) => Err(error),
        }
    }
}

/// What can be shown in a document, for the clauses of a program: `is_document` says that these bytes are the document of an exposition
/// which the metrics that are registered there admit, and of no other.
///
/// <!-- cut: crates/calling/src/roots.rt -->
/// ```rust
/// pub fn first_page<H: Waiter>(root: &mut Root<H>) -> anyhow::Result<Vec<u8>>
///     ensures { IfOk result (λ bytes. ⟦<Root<H> as Shown>⟧.is_document root.new bytes.items) }
/// {
///     let pages = root.counter("pages", "Pages that were asked for")?;
///     pages.inc();
///     Ok(root.document()?)
/// }
/// ```
pub trait Shown {
    ghost is_document: { Self → List ℕ → Type 0 };
}

impl<H: Waiter, X: EncodeMetric> Shown for Root<H, X> {
    ghost is_document = { λ root bytes. IsAdmittedText
        (AdmittedBy ⟦<Metric<H, X> as EncodeMetric>⟧ root.at.tree)
        bytes };
}
