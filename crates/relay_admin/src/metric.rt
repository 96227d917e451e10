//! A metric in the text format of Prometheus, version 0.0.4.
ghost use Rattle.std.specs.Prelude.{◌≡◌, ◌++◌, map, OnOk, string_bytes};
ghost use Rattle.std.specs.List.{flat_map};
ghost use Rattle.relay_admin.specs.Metric.{kind_name, value_text, labelled_text, word_and_count};
ghost use Rattle.relay_admin.specs.Metric.{buckets_text, values_text, metric_text};

use std::alloc::{AllocError, Global};

/// A metric.
#[derive(Clone, Copy, Debug)]
pub(crate) struct Metric<'a> {
    pub name: &'static str,
    pub kind: Kind,
    /// A description of it.
    pub help: &'static str,
    pub values: Values<'a>,
}

/// The kind of a metric.
#[derive(Clone, Copy, Debug)]
pub(crate) enum Kind {
    /// It only rises.
    Counter,
    /// It rises and falls.
    Gauge,
    /// It counts by size, and adds up.
    Histogram,
}

/// The values of a metric.
#[derive(Clone, Copy, Debug)]
pub(crate) enum Values<'a> {
    One(u64),
    /// One, in millionths.
    Micros(u64),
    /// One for each word of a label: the name of the label, and each word with its value.
    Labelled(&'static str, &'a [(&'static str, u64)]),
    /// A histogram.
    Buckets {
        /// Each upper bound, with the number of values that are not above it.
        counts: &'a [(&'static str, u64)],
        /// The sum of the values, in millionths.
        micros: u64,
        /// The number of values.
        all: u64,
    },
}

impl Kind {
    fn name(self) -> &'static str
        ensures { result.now ≡ kind_name self }
    {
        match self {
            Kind::Counter => "counter",
            Kind::Gauge => "gauge",
            Kind::Histogram => "histogram",
        }
    }
}

/// Adds the lines of metrics to a text. If memory runs out, some of them may already be written.
pub(crate) fn write_metrics(
    alloc: Global,
    text: &mut String,
    metrics: &[Metric<'_>],
) -> Result<(), AllocError>
    ensures { OnOk result (string_bytes text.new
        ≡ string_bytes text.old ++ flat_map metric_text metrics.now) }
{
    for metric in metrics {
        write_metric(alloc, text, metric)?;
    }
    Ok(())
}

/// Adds the lines of a metric to a text: what it is, its kind, and its values. If memory runs out,
/// some of them may already be written.
pub(crate) fn write_metric(
    alloc: Global,
    text: &mut String,
    metric: &Metric<'_>,
) -> Result<(), AllocError>
    ensures { OnOk result (string_bytes text.new
        ≡ string_bytes text.old ++ metric_text metric.now) }
{
    let (name, help) = (metric.name, metric.help);
    let kind = metric.kind.name();
    let lines = format!(in alloc; "# HELP {name} {help}\n# TYPE {name} {kind}\n")?;
    text.push_str(lines.as_str())?;
    write_values(alloc, text, name, metric.values)
}

fn write_values(
    alloc: Global,
    text: &mut String,
    name: &str,
    values: Values<'_>,
) -> Result<(), AllocError>
    ensures { OnOk result (string_bytes text.new
        ≡ string_bytes text.old ++ values_text name.now values.entry) }
{
    match values {
        Values::One(value) => write_value(alloc, text, name, value, ""),
        Values::Micros(value) => write_value(alloc, text, name, value, "e-6"),
        Values::Labelled(label, counts) => write_counts(alloc, text, name, label, counts),
        Values::Buckets {
            counts,
            micros,
            all,
        } => write_buckets(alloc, text, name, counts, micros, all),
    }
}

/// The lines of a histogram: its buckets, the sum in millionths, and the number of values.
fn write_buckets(
    alloc: Global,
    text: &mut String,
    name: &str,
    counts: &[(&str, u64)],
    micros: u64,
    all: u64,
) -> Result<(), AllocError>
    ensures { OnOk result (string_bytes text.new ≡ string_bytes text.old
        ++ buckets_text name.now (map word_and_count counts.now) micros all) }
{
    let bucket = format!(in alloc; "{name}_bucket")?;
    write_counts(alloc, text, bucket.as_str(), "le", counts)?;
    let sum = format!(in alloc; "{name}_sum")?;
    write_value(alloc, text, sum.as_str(), micros, "e-6")?;
    let count = format!(in alloc; "{name}_count")?;
    write_value(alloc, text, count.as_str(), all, "")
}

/// The line of a value without a label, with its exponent, if it has one.
fn write_value(
    alloc: Global,
    text: &mut String,
    name: &str,
    value: u64,
    exponent: &str,
) -> Result<(), AllocError>
    ensures { OnOk result (string_bytes text.new
        ≡ string_bytes text.old ++ value_text name.now value exponent.now) }
{
    let line = format!(in alloc; "{name} {value}{exponent}\n")?;
    text.push_str(line.as_str())
}

fn write_counts(
    alloc: Global,
    text: &mut String,
    name: &str,
    label: &str,
    counts: &[(&str, u64)],
) -> Result<(), AllocError>
    ensures { OnOk result (string_bytes text.new ≡ string_bytes text.old ++ flat_map (λ count.
        labelled_text name.now label.now count) (map word_and_count counts.now)) }
{
    for (word, count) in counts {
        write_labelled(alloc, text, name, label, word, *count)?;
    }
    Ok(())
}

/// The line of a value with a label.
fn write_labelled(
    alloc: Global,
    text: &mut String,
    name: &str,
    label: &str,
    word: &str,
    count: u64,
) -> Result<(), AllocError>
    ensures { OnOk result (string_bytes text.new
        ≡ string_bytes text.old ++ labelled_text name.now label.now (word.now, count)) }
{
    let line = format!(in alloc; "{name}{{{label}=\"{word}\"}} {count}\n")?;
    text.push_str(line.as_str())
}
