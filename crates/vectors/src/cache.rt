// A direct simulation of a cache by the times of the last reads: no stack and no distance.
use reuse::MAX_EXTENTS;

// What a place of the cache holds: an extent and the time of its last read, or none where the place is empty.
#[derive(Clone, Copy)]
struct Place {
    extent: u32,
    last: Option<u32>,
}

impl Place {
    // Whether it holds the extent.
    fn holds(self, x: u32) -> bool {
        self.extent == x && self.last.is_some()
    }
}

// A cache of this size, and the number of its reads. It has no more places than as many different extents as the limit fill.
#[derive(Drop)]
pub struct Cache {
    size: usize,
    places: [Place; MAX_EXTENTS],
    reads: u32,
}

impl Cache {
    // An empty cache of this size.
    pub fn new(size: u32) -> Self {
        Cache {
            size: size as usize,
            places: [Place {
                extent: 0,
                last: None,
            }; MAX_EXTENTS],
            reads: 0,
        }
    }

    // A read of x: whether it is a hit. On a miss x comes in, in the place whose last read is oldest, an empty one before all others.
    pub fn read(&mut self, x: u32) -> bool {
        self.reads = self.reads.wrapping_add(1);
        let last = Some(self.reads);
        let places = &mut self.places[..self.size.min(MAX_EXTENTS)];
        if let Some(place) = places.iter_mut().find(|place| place.holds(x)) {
            place.last = last;
            return true;
        }
        if let Some(oldest) = places.iter_mut().min_by_key(|place| place.last) {
            *oldest = Place { extent: x, last };
        }
        false
    }
}
