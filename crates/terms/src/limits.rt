// The limits of a book. Every number that has one runs from 1.

// Party numbers.
pub const MOST_PARTY: u32 = 65_535;

// Order numbers, which count within one class.
pub const MOST_ORDER_NUMBER: u32 = 999_999;

// Prices, in whole cents.
pub const MOST_PRICE: u32 = 999_999;

// The contracts of one order or quote.
pub const MOST_CONTRACTS: u32 = 99_999;

// The contracts of an incoming order.
pub const MOST_TRADED: u32 = 999_999;

// The parties of a roster.
pub const MOST_PARTIES: usize = 16;

// The entries of one class at one price.
pub const MOST_ENTRIES: usize = 64;

// The standing orders of customers, and of firms.
pub const MOST_ORDERS: usize = 64;

// The standing quotes.
pub const MOST_QUOTES: usize = 16;
