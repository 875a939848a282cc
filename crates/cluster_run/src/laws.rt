//! Laws of the workers. There is nothing to compute.
ghost use Rattle.cluster_run.specs.Clusters.{ClustersEnd};

/// Whatever holds of each worker and its own ends at the start of a run holds at its end, and each has ended.
pub fn clusters_end<R>()
    ensures { ClustersEnd R }
{}
