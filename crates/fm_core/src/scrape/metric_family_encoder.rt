//! The encoder of families, one for a whole scrape.
ghost use Rattle.std.specs.Prelude.{◌≡◌, ◌⊎◌, ◌∷◌, ◌++◌, [], Some, None, MatchResult, OnOk, IfOk, IfErr, IfSome, IsSome, codes};
ghost use Rattle.std.specs.Option.{option_copied, option_map};
ghost use Rattle.fm_grammar.specs.Reading.{IsExposition, IsNewName};
ghost use Rattle.fm_grammar.specs.WellFormed.{AreLabels};
ghost use Rattle.fm_raw.specs.declared.encode_error.EncodeError.{EncodeError};
ghost use Rattle.fm_registry_rules.specs.Lists.{items_of};
ghost use Rattle.fm_registry_rules.specs.Listing.{listed_name, IsListable};
ghost use Rattle.fm_labels.specs.Refusals.{Takes};
ghost use Rattle.fm_writer.specs.Output.{text_in};
ghost use Rattle.fm_core.specs.Seen.{seen_listed};
ghost use Rattle.fm_core.specs.Admits.{FaultOf};
ghost use Rattle.fm_core.specs.Families.{next_listed, EncodesFamily};
ghost use Rattle.fm_core.specs.inside.Collected.{collected, Adds};
ghost use Rattle.fm_core.specs.inside.Offered.{IsReady};

use crate::registry::{ListedMetric, Registry};
use crate::scrape::family::add_family;
use crate::scrape::name::{join_name, print_name, text_of};
use fm_encoder::{EncodeMetric, FirstRefusal, MetricEncoder, collector};
use fm_exposition::{Exposition, FamilySamples, make};
use fm_raw::{EncodeError, Metadata};
use fm_writer::TextBlocks;
use std::alloc::{AllocError, Global};
use std::marker::Model;

// What an encoder of lines is made of, and leaves for the next one.
#[derive(Drop)]
pub(crate) struct Parts {
    encoder: MetricEncoder,
    name: String,
}

/// Takes the families of a registry and all below it, one after the other: keeps them for `collect`, or appends their lines to a text
/// for `encode`. These alone make it.
///
/// <!-- cut: crates/calling/src/documents.rt -->
/// ```rust
/// let exposition = collect(alloc, registry)?;
/// ```
pub struct MetricFamilyEncoder<'a> {
    alloc: Global,
    namespace: Option<&'a str>,
    // The families, if they are kept.
    families: Option<Vec<FamilySamples>>,
    refused: FirstRefusal,
    // Keeps the samples of one family after the other, or appends the lines of each.
    encoder: MetricEncoder,
    // The printed name of the current family.
    name: String,
}

impl<'a> Model for MetricFamilyEncoder<'a> {
    ghost use Rattle.std.specs.Option.{option_copied};
    ghost use Rattle.fm_registry_rules.specs.Lists.{items_of};
    ghost use Rattle.fm_writer.specs.Output.{text_in};
    ghost use Rattle.fm_core.specs.Families.{GatheredFamilies};
    ghost use Rattle.fm_core.specs.inside.Collecting.{IsCollecting};

    ghost Value = { GatheredFamilies };

    ghost view = { λ e. record {
      namespace = option_copied e.namespace;
      labels = e.encoder.context.constants;
      families = items_of e.families;
      lines = text_in e.encoder.output;
      refused = e.refused.error;
    } };

    ghost invariant = { IsCollecting };
}

impl<'a> Drop for MetricFamilyEncoder<'a> {
    fn drop(self) {
        let MetricFamilyEncoder {
            alloc: _,
            namespace: _,
            families: _,
            refused: _,
            encoder: _,
            name: _,
        } = self;
    }
}

impl<'a> MetricFamilyEncoder<'a> {
    // An encoder that keeps families and has none, in a registry with no namespace and no labels. Fails if memory runs out.
    pub(crate) fn for_families(alloc: Global) -> Result<MetricFamilyEncoder<'a>, AllocError>
        ensures { IfOk result (λ encoder. encoder
            ≡ record { namespace = None; labels = []; families = []; lines = None; refused = None }) }
    {
        Ok(MetricFamilyEncoder {
            alloc,
            namespace: None,
            families: Some(Vec::new(alloc)),
            refused: FirstRefusal { error: None },
            encoder: collector::for_samples(alloc)?,
            name: String::new(alloc),
        })
    }

    // An encoder that appends the lines of families and has none, in the memory of the one that left these parts.
    pub(crate) fn for_lines(alloc: Global, parts: Option<Parts>) -> MetricFamilyEncoder<'a>
        ensures lines { (result.families ≡ []) × (result.lines ≡ Some []) }
        ensures accepting { result.refused ≡ None }
    {
        let Parts { encoder, name } = match parts {
            Some(mut parts) => {
                collector::begin_document(&mut parts.encoder);
                parts
            }
            None => Parts {
                encoder: collector::for_lines(alloc),
                name: String::new(alloc),
            },
        };
        MetricFamilyEncoder {
            alloc,
            namespace: None,
            families: None,
            refused: FirstRefusal { error: None },
            encoder,
            name,
        }
    }

    // Goes on to a registry: the families that come next have its namespace and its constant labels. Fails with `Memory` if memory runs
    // out.
    pub(crate) fn enter<M>(&mut self, registry: &'a Registry<M>) -> Result<(), EncodeError>
        requires { AreLabels registry.now.facts.labels }
        ensures entered { OnOk result (self.new ≡ record self.old {
          namespace = registry.now.facts.namespace;
          labels = registry.now.facts.labels;
        }) }
        ensures memory { IfErr result (λ k. k ≡ EncodeError.Memory) }
    {
        collector::enter(&mut self.encoder, registry.constant_labels())?;
        self.namespace = registry.namespace();
        Ok(())
    }

    /// Takes the next metric: adds its family with this metadata, unless the metric is empty. The metadata is that of a metric of
    /// the current registry, whose printed name no family has so far. Fails with `Memory` if memory runs out, or for a fault of
    /// the metric; from then on each call returns this first error and changes nothing. It may wait if the metric waits for a lock.
    pub fn encode<M: EncodeMetric>(
        &mut self,
        metadata: &Metadata,
        metric: &M,
    ) -> Result<(), EncodeError>
        requires listable { IsListable (next_listed self.old metadata.now metric.now) }
        requires new_name { IsNewName
            (listed_name (next_listed self.old metadata.now metric.now)) self.old.families }
        ensures { Takes (EncodesFamily M.EncodeMetric
            (next_listed self.old metadata.now metric.now) self.old self.new)
            self.new.refused result }
    {
        self.refused.check()?;
        if metric.is_empty() {
            return Ok(());
        }
        let (text, unit) = (&mut self.name, text_of(metadata.unit()));
        if let Err(AllocError) = join_name(text, self.namespace, metadata.name(), unit) {
            return self.refused.refuse(EncodeError::Memory);
        }
        match add_family(
            &mut self.encoder,
            self.alloc,
            &mut self.families,
            self.name.as_str(),
            metadata,
            metric,
        ) {
            Ok(()) => Ok(()),
            Err(error) => self.refused.refuse(error),
        }
    }

    // Takes a listed metric of the current registry: adds its family, unless the metric is empty, or returns the first refusal.
    pub(crate) fn encode_listed<M: EncodeMetric>(
        &mut self,
        listed: &ListedMetric<'_, M>,
    ) -> Result<(), EncodeError>
        requires listable { IsListable (seen_listed listed.now) }
        requires labels { self.old.labels ≡ (seen_listed listed.now).labels }
        requires accepting { self.old.refused ≡ None }
        ensures labels { self.new.labels ≡ self.old.labels }
        ensures accepting { OnOk result (self.new.refused ≡ None) }
        ensures added { OnOk result (Adds M.EncodeMetric (seen_listed listed.now ∷ [])
            (collected self.old) (collected self.new)) }
        ensures refused { IfErr result (λ k. (k ≡ EncodeError.Memory)
            ⊎ FaultOf M.EncodeMetric k (seen_listed listed.now)) }
    {
        if listed.metric.is_empty() {
            return Ok(());
        }
        if let Err(AllocError) = print_name(&mut self.name, listed) {
            return self.refused.refuse(EncodeError::Memory);
        }
        match add_family(
            &mut self.encoder,
            self.alloc,
            &mut self.families,
            self.name.as_str(),
            listed.metadata,
            listed.metric,
        ) {
            Ok(()) => Ok(()),
            Err(error) => self.refused.refuse(error),
        }
    }

    // The families, which make an exposition.
    pub(crate) fn into_exposition(self) -> Exposition
        requires { IsExposition self.families }
        ensures { result ≡ self.entry.families }
    {
        let MetricFamilyEncoder {
            alloc,
            namespace: _,
            families,
            refused: _,
            encoder: _,
            name: _,
        } = self;
        match families {
            Some(families) => make::exposition(families),
            None => make::exposition(Vec::new(alloc)),
        }
    }

    // Appends the last line of a document. Fails with `Memory` if memory runs out.
    #[tactic(auto, using(crate::proofs::OfferedLemmas::ready_ended))]
    pub(crate) fn end(&mut self) -> Result<(), EncodeError>
        requires lines { IsSome self.old.lines }
        requires accepting { self.old.refused ≡ None }
        ensures ended { OnOk result (self.new.lines
            ≡ option_map (λ lines. lines ++ codes "# EOF\n") self.old.lines) }
        ensures memory { IfErr result (λ k. k ≡ EncodeError.Memory) }
    {
        if let Err(AllocError) = collector::end_document(&mut self.encoder) {
            return self.refused.refuse(EncodeError::Memory);
        }
        Ok(())
    }

    // The lines so far.
    pub(crate) fn lines(&self) -> &TextBlocks
        requires { IsSome self.now.lines }
        ensures { Some result.now ≡ self.now.lines }
    {
        match collector::lines(&self.encoder) {
            Some(lines) => lines,
            None => unreachable!(),
        }
    }

    // What it is made of.
    pub(crate) fn into_parts(self) -> Parts {
        let MetricFamilyEncoder {
            alloc: _,
            namespace: _,
            families: _,
            refused: _,
            encoder,
            name,
        } = self;
        Parts { encoder, name }
    }
}
