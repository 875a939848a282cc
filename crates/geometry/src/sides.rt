//! What bounds a rectangle's pixels by clip coordinates.
ghost use Rattle.std.specs.Prelude.{◌^◌};
ghost use Rattle.rc_base.specs.Numbers.{Within};

/// What bounds a rectangle's pixels along one axis, by clip coordinates: a vertex lies before them where its coordinate times `scale` is less than `low`
/// times its w, and behind them where it is `high` times its w or more.
#[derive(Clone, Copy)]
pub struct AxisBounds {
    pub(crate) scale: i64,
    pub(crate) low: i64,
    pub(crate) high: i64,
    ghost scale_small: { Within (2 ^ 20) scale },
    ghost low_small: { Within (2 ^ 31) low },
    ghost high_small: { Within (2 ^ 31) high },
}

/// The same along both axes, where no matrix moves a vertex.
#[derive(Clone, Copy)]
pub struct ClipBounds {
    pub(crate) across: AxisBounds,
    pub(crate) up: AxisBounds,
}
