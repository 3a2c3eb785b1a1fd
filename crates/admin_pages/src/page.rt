//! The page of metrics, in the text format of Prometheus (version 0.0.4).
ghost use Rattle.std.specs.Prelude.{◌≡◌, ◌++◌, [], slice_index, IsTrue, OnErr, OnOk};
ghost use Rattle.admin_pages.specs.Counting.{sums_at};
ghost use Rattle.admin_pages.specs.Families.{gauges_of, numbers, shown, tenant_gauges_of};
ghost use Rattle.admin_pages.specs.Labels.{escaped, tenant_name};
ghost use Rattle.admin_pages.specs.Pages.{build_label, head, is_whole, label, left, moved, page, row, sample, start, suffix, tenant_label, time_value, total, value, value_end};

use crate::about::About;
use crate::counted::{Metrics, TENANTS};
use crate::families::{Family, Samples, family_at, family_count, rows_of};
use crate::labels::{STATUS_PLACES, TIMES, bound_name, command_name, status_name};
use crate::pieces::{append_all, append_escaped, append_number};
use std::alloc::AllocError;

/// What a server has at a moment. The lists have a number for each tenant.
#[derive(Clone, Copy, Debug)]
pub struct Gauges {
    /// Seconds since the start.
    pub uptime: u64,
    /// Whether it was said that it is ready.
    pub is_ready: bool,
    /// Connections that are open.
    pub open: u64,
    /// The most connections that may be open.
    pub open_limit: u64,
    /// Whether the system had no descriptor or no memory for the last connection.
    pub is_refused: bool,
    /// Connections that wait for memory.
    pub waiting: u64,
    /// Bytes buffered for all connections.
    pub buffered: u64,
    /// The most bytes that are buffered.
    pub limit: u64,
    /// Connections that were accepted.
    pub connections: u64,
    /// Bytes read.
    pub read: u64,
    /// Bytes written.
    pub written: u64,
    /// Lines of the log that were dropped.
    pub dropped: u64,
    /// Lines of the log that could not be written.
    pub lost: u64,
    /// How many tenants there are.
    pub tenants: usize,
    /// Collections of each.
    pub collections: [u64; TENANTS],
    /// Documents of each.
    pub documents: [u64; TENANTS],
    /// Bytes of texts of each.
    pub texts: [u64; TENANTS],
    /// Bytes of memory that the documents of each take.
    pub memory: [u64; TENANTS],
    /// Connections that wait for memory, by the last tenant that was answered on each.
    pub waiting_of: [u64; TENANTS],
}

/// A page that is being written: what it tells, which does not change meanwhile, and the next line's metric and place.
#[derive(Clone, Copy)]
pub struct Page {
    pub metrics: Metrics,
    pub gauges: Gauges,
    pub family: usize,
    pub place: usize,
}

impl Page {
    /// One of which nothing is written.
    pub fn new(metrics: &Metrics, gauges: &Gauges) -> Page
        ensures { (about : About) → left about result ≡ page about metrics.now gauges.now }
    {
        Page {
            metrics: *metrics,
            gauges: *gauges,
            family: 0,
            place: 0,
        }
    }

    /// Whether all of it is written.
    #[tactic(auto, using(crate::proofs::Lines::none_left))]
    pub fn is_whole(&self) -> bool
        ensures whole { result ≡ is_whole self.now }
        ensures none { IsTrue result → (about : About) → left about self.now ≡ [] }
    {
        self.family >= family_count()
    }

    /// Appends the next line, behind the two lines that begin a metric if it is the metric's first. Behind a metric's last one nothing is
    /// appended, and the next metric comes.
    ///
    /// # Errors
    ///
    /// Where a growth was refused: the page goes on where it was, and the bytes behind those that were there are to be cut off.
    #[tactic(auto, using(crate::proofs::Lines::moved_row, crate::proofs::Lines::moved_metric, crate::proofs::Lines::moved_end))]
    pub fn append_line(&mut self, about: &About, out: &mut Vec<u8>) -> Result<(), AllocError>
        ensures text { OnOk result (out.new.items ++ left about.now self.new ≡ out.old.items ++ left about.now self.old) }
        ensures moved { OnOk result (self.new ≡ moved self.old) }
        ensures unchanged { OnErr result (self.new ≡ self.old) }
    {
        let Some(family) = family_at(self.family) else {
            return Ok(());
        };
        if self.place >= rows_of(family.samples, self.gauges.tenants) {
            self.family += 1;
            self.place = 0;
            return Ok(());
        }
        self.append_row(about, family, out)?;
        self.place += 1;
        Ok(())
    }

    #[tactic(auto, unfolding(crate::specs::Pages::row))]
    fn append_row(&self, about: &About, family: Family, out: &mut Vec<u8>) -> Result<(), AllocError>
        ensures { OnOk result (out.new.items ≡ out.old.items ++ row about.now self.now.metrics self.now.gauges (shown family) self.now.place) }
    {
        append_start(family, self.place, out)?;
        let number = value(&self.metrics, &self.gauges, family.samples, self.place);
        append_sample(about, family, self.place, number, out)
    }
}

// The head of a metric stands before its first sample.
fn append_start(family: Family, place: usize, out: &mut Vec<u8>) -> Result<(), AllocError>
    ensures { OnOk result (out.new.items ≡ out.old.items ++ start (shown family) place) }
{
    if place != 0 {
        return Ok(());
    }
    append_head(family, out)
}

fn append_head(family: Family, out: &mut Vec<u8>) -> Result<(), AllocError>
    ensures { OnOk result (out.new.items ≡ out.old.items ++ head (shown family)) }
{
    let (name, help) = (family.name.as_bytes(), family.help.as_bytes());
    append_all(
        &[
            b"# HELP ",
            name,
            b" ",
            help,
            b"\n# TYPE ",
            name,
            b" ",
            family.kind.as_bytes(),
            b"\n",
        ],
        out,
    )
}

#[tactic(auto, unfolding(crate::specs::Pages::sample))]
fn append_sample(
    about: &About,
    family: Family,
    place: usize,
    number: u64,
    out: &mut Vec<u8>,
) -> Result<(), AllocError>
    ensures { OnOk result (out.new.items ≡ out.old.items ++ sample about.now (shown family) place number) }
{
    let samples = family.samples;
    append_all(
        &[family.name.as_bytes(), suffix(samples, place).as_bytes()],
        out,
    )?;
    append_label(about, samples, place, out)?;
    out.extend_from_slice(b" ")?;
    append_number(number, out)?;
    out.extend_from_slice(value_end(samples, place).as_bytes())
}

// What stands behind the name of a histogram.
fn suffix(samples: Samples, place: usize) -> &'static str
    ensures { result.now ≡ suffix samples place }
{
    match samples {
        Samples::Times if place < TIMES => "_bucket",
        Samples::Times if place == TIMES => "_sum",
        Samples::Times => "_count",
        _ => "",
    }
}

// What stands behind a number: the sum of times is counted in microseconds, and told in seconds.
fn value_end(samples: Samples, place: usize) -> &'static str
    ensures { result.now ≡ value_end samples place }
{
    match samples {
        Samples::Times if place == TIMES => "e-6\n",
        _ => "\n",
    }
}

fn append_label(
    about: &About,
    samples: Samples,
    place: usize,
    out: &mut Vec<u8>,
) -> Result<(), AllocError>
    ensures { OnOk result (out.new.items ≡ out.old.items ++ label about.now samples place) }
{
    match samples {
        Samples::Cells => append_all(
            &[
                b"{command=\"",
                command_name(place / STATUS_PLACES).as_bytes(),
                b"\",status=\"",
                status_name(place % STATUS_PLACES).as_bytes(),
                b"\"}",
            ],
            out,
        ),
        Samples::Times if place < TIMES => append_all(
            &[b"{le=\"", bound_name(place).as_bytes(), b"\"}"],
            out,
        ),
        Samples::Build => append_build(about, out),
        Samples::TenantTotal(_) | Samples::TenantGauge(_) => append_tenant(about, place, out),
        _ => Ok(()),
    }
}

fn append_tenant(about: &About, place: usize, out: &mut Vec<u8>) -> Result<(), AllocError>
    ensures { OnOk result (out.new.items ≡ out.old.items ++ tenant_label about.now place) }
{
    out.extend_from_slice(b"{tenant=\"")?;
    append_tenant_name(&about.tenants, place, out)?;
    out.extend_from_slice(b"\"}")
}

fn append_tenant_name(tenants: &[String], place: usize, out: &mut Vec<u8>) -> Result<(), AllocError>
    ensures { OnOk result (out.new.items ≡ out.old.items ++ tenant_name tenants.now place) }
{
    match tenants.get(place) {
        Some(name) => append_escaped(name.as_bytes(), out),
        None => append_number(place as u64, out),
    }
}

fn append_build(about: &About, out: &mut Vec<u8>) -> Result<(), AllocError>
    ensures { OnOk result (out.new.items ≡ out.old.items ++ build_label about.now) }
{
    append_value(b"{version=\"", about.version.as_bytes(), out)?;
    append_value(b"\",commit=\"", about.commit.as_bytes(), out)?;
    append_value(b"\",proved=\"", about.proved.as_bytes(), out)?;
    append_value(b"\",kit=\"", about.kit.as_bytes(), out)?;
    out.extend_from_slice(b"\"}")
}

// The value of a label, behind what stands before it.
fn append_value(before: &[u8], text: &[u8], out: &mut Vec<u8>) -> Result<(), AllocError>
    ensures { OnOk result (out.new.items ≡ out.old.items ++ (before.now ++ escaped text.now)) }
{
    out.extend_from_slice(before)?;
    append_escaped(text, out)
}

// The number of a sample.
fn value(metrics: &Metrics, gauges: &Gauges, samples: Samples, place: usize) -> u64
    ensures { result ≡ value metrics.now gauges.now samples place }
{
    match samples {
        Samples::Build => 1,
        Samples::Gauge(number) => gauge(gauges, number),
        Samples::Cells => number_at(&metrics.requests, place),
        Samples::Times => time_number(metrics, place),
        Samples::Total(number) => number_at(&metrics.totals, number),
        Samples::TenantTotal(number) => tenant_total(metrics, place, number),
        Samples::TenantGauge(number) => tenant_gauge(gauges, place, number),
    }
}

fn gauge(gauges: &Gauges, number: usize) -> u64
    ensures { result ≡ slice_index (numbers (gauges_of gauges.now)) number }
{
    number_at(
        &[
            gauges.uptime,
            u64::from(gauges.is_ready),
            gauges.open,
            gauges.open_limit,
            u64::from(gauges.is_refused),
            gauges.waiting,
            gauges.buffered,
            gauges.limit,
            gauges.connections,
            gauges.read,
            gauges.written,
            gauges.dropped,
            gauges.lost,
        ],
        number,
    )
}

fn tenant_total(metrics: &Metrics, tenant: usize, number: usize) -> u64
    ensures { result ≡ slice_index (sums_at metrics.now.tenants tenant) number }
{
    match metrics.tenants.get(tenant) {
        Some(sums) => number_at(sums, number),
        None => 0,
    }
}

fn tenant_gauge(gauges: &Gauges, tenant: usize, number: usize) -> u64
    ensures { result ≡ slice_index (numbers (tenant_gauges_of gauges.now tenant)) number }
{
    number_at(
        &[
            number_at(&gauges.collections, tenant),
            number_at(&gauges.documents, tenant),
            number_at(&gauges.texts, tenant),
            number_at(&gauges.memory, tenant),
            number_at(&gauges.waiting_of, tenant),
        ],
        number,
    )
}

fn number_at(numbers: &[u64], place: usize) -> u64
    ensures { result ≡ slice_index numbers.now place }
{
    numbers.get(place).copied().unwrap_or(0)
}

// Requests that took at most a bound, then the microseconds of all, then how many there were.
fn time_number(metrics: &Metrics, place: usize) -> u64
    ensures { result ≡ time_value metrics.now place }
{
    if place < TIMES {
        total(&metrics.times[..place + 1])
    } else if place == TIMES {
        metrics.micros
    } else {
        total(&metrics.times)
    }
}

#[tactic(auto, using(crate::proofs::Lines::all_counted))]
fn total(counts: &[u64]) -> u64
    ensures { result ≡ total counts.now }
{
    let mut all = 0u64;
    for count in counts {
        all = all.saturating_add(*count);
    }
    all
}
