//! Calendars and orders that count.
use calendar::Calendar;
use order::Order;
use std::cell::Cell;

/// A calendar or an order that counts how often it is asked.
#[derive(Clone, Copy)]
pub(crate) struct Asked<'a, T> {
    pub(crate) inner: T,
    pub(crate) times: &'a Cell<u32>,
}

impl<T> Asked<'_, T> {
    fn count(&self) {
        self.times.set(self.times.get().saturating_add(1));
    }
}

impl<C: Calendar> Calendar for Asked<'_, C> {
    ghost dates = { λ c. C.dates c.inner };

    ghost spacings = { λ c. C.spacings c.inner };

    ghost laws = { λ c. C.laws c.inner };

    fn spacing(&self, model: u32) -> u32 {
        self.count();
        self.inner.spacing(model)
    }

    fn earliest(&self, model: u32, from: u32) -> Option<u32> {
        self.count();
        self.inner.earliest(model, from)
    }
}

impl<O: Order> Order for Asked<'_, O> {
    type Item = O::Item;

    ghost precedes = { λ o. O.precedes o.inner };

    ghost laws = { λ o. O.laws o.inner };

    fn before(&self, a: &O::Item, b: &O::Item) -> bool {
        self.count();
        self.inner.before(a, b)
    }
}
