// Gathering offers, one by one.
ghost use Rattle.std.specs.Prelude.{◌≡◌, ◌+◌, ◌<◌, ◌≤◌, [], ◌++◌};
ghost use Rattle.plan.specs.Terms.{most_rows};
ghost use Rattle.server.specs.Turn.{join_offer};
ghost use Rattle.server.specs.Gathered.{gathered};

use super::Offers;
use donor::Offer;
use plan::table::MOST_ROWS;

impl Offers {
    /// The offers, by rising number.
    pub fn items(&self) -> &[Offer]
        ensures { result.now ≡ gathered self.now }
    {
        &self.items[0..self.count]
    }

    // No offer.
    pub(crate) fn none() -> Offers
        ensures count { result.count ≡ 0 }
        ensures gathered { gathered result ≡ [] }
    {
        let blank = Offer {
            server: 0,
            deadline: 0,
            capacity: 0,
        };
        Offers {
            items: [blank; MOST_ROWS],
            count: 0,
        }
    }

    // One more offer, if it is one and there is room.
    pub(crate) fn join(&mut self, offer: Option<Offer>)
        ensures more { self.old.count < most_rows → gathered self.new ≡ gathered self.old ++ join_offer offer [] }
        ensures count { self.new.count ≤ self.old.count + 1 }
    {
        if let Some(offer) = offer {
            if self.count < MOST_ROWS {
                self.items[self.count] = offer;
                self.count += 1;
            }
        }
    }
}
