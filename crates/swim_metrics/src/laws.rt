//! Laws of the metrics. Each is the contract of a function that does nothing, so that it stays proved.

ghost use Rattle.std.specs.Prelude.{◌≡◌, false, true, Contains};
ghost use Rattle.std.specs.List.{list_all};
ghost use Rattle.swim_metrics.specs.declared.heads.Metric.{Metric};
ghost use Rattle.swim_metrics.specs.declared.outside.Outside.{Outside};
ghost use Rattle.swim_metrics.specs.Families.{all};
ghost use Rattle.swim_metrics.specs.declared.measures.Measures.{Measures};
ghost use Rattle.swim_metrics.specs.Naming.{families, has_twice, is_plain, is_well_named, names};

/// No two metrics have the same name, whatever was counted.
pub fn each_metric_is_named_once()
    ensures { (m : Measures) (out : Outside) → has_twice (names m out) ≡ false }
{}

/// Each metric is among those that are told.
pub fn each_metric_is_told()
    ensures { (metric : Metric) → Contains all metric }
{}

/// Each name begins with the program's name, and ends in `_total` exactly where the metric is a counter.
pub fn names_are_as_prometheus_wants()
    ensures { (m : Measures) (out : Outside) → list_all is_well_named (families m out) ≡ true }
{}

/// What a metric tells is one line, in which nothing has to be escaped.
pub fn what_metrics_tell_is_plain()
    ensures { (m : Measures) (out : Outside) → list_all (λ f. is_plain f.help) (families m out) ≡ true }
{}
