// Tests of planning: worked days, refusals, the largest lists, random lists beside the rule, and other ways to plan, which take rounds
// too many.
mod bytes;
mod checks;
mod days;
mod put_ways;
mod random_lists;
mod room_ways;
mod slices;
mod ways;
mod worked;
